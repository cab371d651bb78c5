//! Tasks of two workers that wait for one another.
use crate::on_a_line::{LAST, built};
use crate::waiting::comes;
use ann_shelf::{FreeGate, Gate};
use std::alloc::Global;
use std::sync::Wait;
use std::sync::atomic::{AtomicU64, Ordering};
use std::thread::Threads;
use top_calls::Outcome;

/// A gate at which the first task after the last batch has begun waits until a task of another worker has begun.
#[derive(Drop)]
struct Meeting {
    /// 1 from the last batch on.
    state: AtomicU64,
    /// One more than the worker of the waiting task, and of the task that it met.
    first: AtomicU64,
    other: AtomicU64,
    /// 1 where the task waited in vain.
    vain: AtomicU64,
}

impl Meeting {
    fn new() -> Meeting {
        Meeting {
            state: AtomicU64::new(0),
            first: AtomicU64::new(0),
            other: AtomicU64::new(0),
            vain: AtomicU64::new(0),
        }
    }
}

impl Gate for Meeting {
    fn task(&self, worker: u32, _task: u32) {
        let own = u64::from(worker) + 1;
        if self.state.load(Ordering::SeqCst) == 0 {
            return;
        }
        match self
            .first
            .compare_exchange(0, own, Ordering::SeqCst, Ordering::SeqCst)
        {
            Ok(_) => {
                if !comes(&self.other) {
                    self.vain.store(1, Ordering::SeqCst);
                }
            }
            Err(first) => {
                if first != own {
                    self.other.store(own, Ordering::SeqCst);
                }
            }
        }
    }

    fn batch(&self, v: u32) {
        if v == LAST {
            self.state.store(1, Ordering::SeqCst);
        }
    }

    fn answer(&self, _query: u32) {}
}

/// The workers of the two tasks that met in a build of this pool, 1 more, where neither waited in vain and the index is that
/// of another build.
fn met<R: Threads + Wait + Sync>(
    rt: &R,
    alloc: Global,
    pool: &str,
    serial: &Outcome,
) -> Option<(u64, u64)> {
    let gate = Meeting::new();
    let ended = built(rt, alloc, pool, &gate).ok()?;
    if ended.shelf.bytes("ann") == serial.shelf.bytes("ann")
        && gate.vain.load(Ordering::SeqCst) == 0
    {
        Some((
            gate.first.load(Ordering::SeqCst),
            gate.other.load(Ordering::SeqCst),
        ))
    } else {
        None
    }
}

/// Whether tasks of the two workers, of which the caller is none, meet in a build of each pool that has two.
fn meet_in_each_pool<R: Threads + Wait + Sync>(rt: &R, alloc: Global) -> bool {
    let Ok(serial) = built(rt, alloc, "serial", &FreeGate) else {
        return false;
    };
    let steal = met(rt, alloc, "steal", &serial);
    let rayon = met(rt, alloc, "rayon", &serial);
    serial.status.code == 0
        && serial.shelf.bytes("ann").is_some()
        && (steal == Some((1, 2)) || steal == Some((2, 1)))
        && (rayon == Some((1, 2)) || rayon == Some((2, 1)))
}

#[test]
fn tasks_of_both_workers_meet_in_a_build(rt: HostRuntime) {
    assert!(rt; meet_in_each_pool(&rt, rt.alloc()));
}
