//! What a gate sees: batches and tasks.
use crate::on_a_line::line_of;
use ann_shelf::{Gate, NoMemory};
use std::alloc::Global;
use std::sync::Wait;
use std::sync::atomic::{AtomicU64, Ordering};
use std::thread::Threads;
use top_calls::{FOUR, FOUR_BY_FOUR, NONE, call_at, holds};

/// A gate that counts. The numbers of the batches stand behind one another, a decimal digit each.
#[derive(Drop)]
struct Counting {
    batches: AtomicU64,
    tasks: AtomicU64,
}

impl Counting {
    fn new() -> Counting {
        Counting {
            batches: AtomicU64::new(0),
            tasks: AtomicU64::new(0),
        }
    }
}

impl Gate for Counting {
    fn task(&self, _worker: u32, _task: u32) {
        self.tasks.fetch_add(1, Ordering::SeqCst);
    }

    fn batch(&self, v: u32) {
        let before = self.batches.load(Ordering::SeqCst);
        self.batches.store(
            before.wrapping_mul(10).wrapping_add(u64::from(v)),
            Ordering::SeqCst,
        );
    }

    fn answer(&self, _query: u32) {}
}

/// Builds of [`FOUR_BY_FOUR`] over each pool.
static BUILDS: [&str; 3] = [
    "build pts ann --order file --start first --degree 2 --beam 4 --alpha 1/1 --cap 4 --pool steal --workers 2",
    "build pts ann --order file --start first --degree 2 --beam 4 --alpha 1/1 --cap 4 --pool serial",
    "build pts ann --order file --start first --degree 2 --beam 4 --alpha 1/1 --cap 4 --pool rayon --workers 2",
];

/// The batches and the number of tasks that a gate is told of, in a call that ends well and leaves the worked index.
fn counted<R: Threads + Wait + Sync>(
    rt: &R,
    alloc: Global,
    words: &str,
    files: &[(&str, &[u8])],
) -> Option<(u64, u64)> {
    let gate = Counting::new();
    let ended = call_at(rt, alloc, words, files, NONE, &gate).ok()?;
    if ended.status.code == 0 && holds(&ended.shelf, &[("ann", FOUR_BY_FOUR)]) {
        Some((
            gate.batches.load(Ordering::SeqCst),
            gate.tasks.load(Ordering::SeqCst),
        ))
    } else {
        None
    }
}

#[test]
fn the_gate_is_told_of_each_batch_and_each_task(rt: HostRuntime) {
    // Batches of 1, 1 and 2 points have as many new rows, and 0, 1 and 1 rows that are merged.
    for words in &BUILDS {
        assert!(rt;
            counted(&rt, rt.alloc(), words, &[("pts", FOUR)]) == Some((123, 6)),
            "{words}"
        );
    }
    let files = [("pts", FOUR), ("ann", FOUR_BY_FOUR), ("ask", FOUR)];
    assert!(rt; counted(&rt, rt.alloc(), "query pts ann ask", &files) == Some((0, 4)));
}

/// A gate that counts the tasks of other workers than the first.
#[derive(Drop)]
struct Others(AtomicU64);

impl Gate for Others {
    fn task(&self, worker: u32, _task: u32) {
        if worker != 0 {
            self.0.fetch_add(1, Ordering::SeqCst);
        }
    }

    fn batch(&self, _v: u32) {}

    fn answer(&self, _query: u32) {}
}

/// How many tasks of other workers than the first a build of batches of one point has, where it ends well.
fn tasks_of_others<R: Threads + Wait + Sync>(
    rt: &R,
    alloc: Global,
    pool: &str,
) -> Result<Option<u64>, NoMemory> {
    let gate = Others(AtomicU64::new(0));
    let points = line_of(alloc, 128)?;
    let words = format!(in alloc; "build pts ann --cap 1 --degree 2 --workers 2 --pool {pool}")?;
    let files = [("pts", points.as_slice())];
    let ended = call_at(rt, alloc, words.as_str(), &files, NONE, &gate)?;
    if ended.status.code == 0 {
        Ok(Some(gate.0.load(Ordering::SeqCst)))
    } else {
        Ok(None)
    }
}

#[test]
fn rounds_of_few_tasks_run_in_one_thread(rt: HostRuntime) {
    // Each of the 128 batches is one point, and few rows are merged after it.
    for pool in ["steal", "rayon"] {
        assert!(rt;
            tasks_of_others(&rt, rt.alloc(), pool) == Ok(Some(0)),
            "{pool}"
        );
    }
}
