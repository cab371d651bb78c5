//! The pool that is asked for: which worker runs which task of a round.
use crate::on_a_line::{LAST, answered, built};
use crate::waiting::comes;
use ann_shelf::{Gate, NoMemory};
use std::alloc::Global;
use std::sync::Wait;
use std::sync::atomic::{AtomicU64, Ordering};
use std::thread::Threads;
use top_calls::Outcome;

/// Of a round of 64 tasks the first and the last of each half.
const WATCHED: [u32; 4] = [0, 31, 32, 63];

/// Which of these tasks a task is.
fn watched(task: u32) -> Option<usize> {
    for (i, number) in WATCHED.iter().enumerate() {
        if *number == task {
            return Some(i);
        }
    }
    None
}

/// A gate that notes which worker runs each of four tasks of the first round from a batch on, or of the call where the
/// batch is 0. Where it holds tasks back, the first one waits until the last of its half has begun, and the first of
/// the other half until it has itself.
#[derive(Drop)]
struct Noting {
    from: u32,
    holds: bool,
    state: AtomicU64,
    seen: AtomicU64,
    /// One more than the worker of each task.
    workers: [AtomicU64; 4],
    vain: AtomicU64,
}

impl Noting {
    fn new(from: u32, holds: bool) -> Noting {
        Noting {
            from,
            holds,
            state: AtomicU64::new(u64::from(from == 0)),
            seen: AtomicU64::new(0),
            workers: [
                AtomicU64::new(0),
                AtomicU64::new(0),
                AtomicU64::new(0),
                AtomicU64::new(0),
            ],
            vain: AtomicU64::new(0),
        }
    }

    fn workers(&self) -> [u64; 4] {
        [
            self.workers[0].load(Ordering::SeqCst),
            self.workers[1].load(Ordering::SeqCst),
            self.workers[2].load(Ordering::SeqCst),
            self.workers[3].load(Ordering::SeqCst),
        ]
    }

    // Notes the worker of one of the four tasks, and holds it back.
    fn note(&self, worker: u32, which: usize) {
        if which >= 4 || self.seen.fetch_add(1, Ordering::SeqCst) >= 4 {
            return;
        }
        self.workers[which].store(u64::from(worker) + 1, Ordering::SeqCst);
        let held = self.holds
            && match which {
                0 => !comes(&self.workers[1]),
                2 => !comes(&self.workers[0]),
                _ => false,
            };
        if held {
            self.vain.store(1, Ordering::SeqCst);
        }
    }
}

impl Gate for Noting {
    fn task(&self, worker: u32, task: u32) {
        if self.state.load(Ordering::SeqCst) == 0 {
            return;
        }
        if let Some(which) = watched(task) {
            self.note(worker, which);
        }
    }

    fn batch(&self, v: u32) {
        if v == self.from {
            self.state.store(1, Ordering::SeqCst);
        }
    }

    fn answer(&self, _query: u32) {}
}

/// One loop: each task is the one worker's. Fixed shares: each worker has its half.
static FIXED: [(&str, [u64; 4]); 2] = [("serial", [1, 1, 1, 1]), ("rayon", [1, 1, 2, 2])];

/// A build where the batch is other than 0, else queries.
fn done<R: Threads + Wait + Sync>(
    rt: &R,
    alloc: Global,
    pool: &str,
    gate: &Noting,
) -> Result<Outcome, NoMemory> {
    if gate.from == 0 {
        answered(rt, alloc, pool, gate)
    } else {
        built(rt, alloc, pool, gate)
    }
}

/// The workers of the four tasks, 1 more, where the call ends well and no task waits in vain.
fn workers_of<R: Threads + Wait + Sync>(
    rt: &R,
    alloc: Global,
    pool: &str,
    from: u32,
    holds: bool,
) -> Option<[u64; 4]> {
    let gate = Noting::new(from, holds);
    let ended = done(rt, alloc, pool, &gate).ok()?;
    if ended.status.code == 0 && gate.vain.load(Ordering::SeqCst) == 0 {
        Some(gate.workers())
    } else {
        None
    }
}

/// Whether tasks are stolen: the first worker waits in its first task until the other one has begun the last of its half.
fn are_stolen<R: Threads + Wait + Sync>(rt: &R, alloc: Global, from: u32) -> bool {
    match workers_of(rt, alloc, "steal", from, true) {
        Some(workers) => workers[0] == 1 && workers[1] == 2,
        None => false,
    }
}

#[test]
fn the_pool_asked_for_is_the_pool_that_builds(rt: HostRuntime) {
    for (pool, workers) in &FIXED {
        assert!(rt;
            workers_of(&rt, rt.alloc(), pool, LAST, false) == Some(*workers),
            "{pool}"
        );
    }
    assert!(rt; are_stolen(&rt, rt.alloc(), LAST));
}

#[test]
fn the_pool_asked_for_is_the_pool_that_answers(rt: HostRuntime) {
    for (pool, workers) in &FIXED {
        assert!(rt;
            workers_of(&rt, rt.alloc(), pool, 0, false) == Some(*workers),
            "{pool}"
        );
    }
    assert!(rt; are_stolen(&rt, rt.alloc(), 0));
}
