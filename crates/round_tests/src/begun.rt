//! Which worker begins which task, and how often.
use crate::squares::{run, steal};
use ann_shelf::Gate;
use std::sync::atomic::{AtomicU64, Ordering};
use std::test::Fail;
use steal_pool::{RayonRounds, SerialRounds};

// Of each of five tasks a number.
type FiveNumbers = [AtomicU64; 5];

fn zeros() -> FiveNumbers {
    [
        AtomicU64::new(0),
        AtomicU64::new(0),
        AtomicU64::new(0),
        AtomicU64::new(0),
        AtomicU64::new(0),
    ]
}

// A gate that keeps of each of five tasks how often it was begun, and by which worker last.
#[derive(Drop)]
struct Begun {
    times: FiveNumbers,
    by: FiveNumbers,
}

impl Begun {
    fn new() -> Begun {
        Begun {
            times: zeros(),
            by: zeros(),
        }
    }

    // Whether the task was begun once, by this worker.
    fn is_begun_by(&self, task: u32, worker: u32) -> bool {
        let at = task as usize % 5;
        self.times[at].load(Ordering::SeqCst) == 1
            && self.by[at].load(Ordering::SeqCst) == u64::from(worker)
    }

    // Whether the five tasks were begun once, each by the worker at its place.
    fn are_begun_by(&self, workers: [u32; 5]) -> bool {
        for task in 0..5u32 {
            if !self.is_begun_by(task, workers[task as usize]) {
                return false;
            }
        }
        true
    }
}

impl Gate for Begun {
    fn task(&self, worker: u32, task: u32) {
        let at = task as usize % 5;
        self.times[at].fetch_add(1, Ordering::SeqCst);
        self.by[at].store(u64::from(worker), Ordering::SeqCst);
    }

    fn batch(&self, _v: u32) {}

    fn answer(&self, _query: u32) {}
}

#[test]
fn serial_tasks_are_begun_once_by_worker_0(rt: HostRuntime) -> Result<(), Fail> {
    let gate = Begun::new();
    run(&rt, rt.alloc(), &mut SerialRounds::new(), 5, &gate)?;
    assert!(rt; gate.are_begun_by([0, 0, 0, 0, 0]));
    Ok(())
}

#[test]
fn rayon_tasks_are_begun_once_by_the_worker_of_their_share(rt: HostRuntime) -> Result<(), Fail> {
    let gate = Begun::new();
    run(&rt, rt.alloc(), &mut RayonRounds::new(3), 5, &gate)?;
    assert!(rt; gate.are_begun_by([0, 1, 1, 2, 2]));
    Ok(())
}

#[test]
fn steal_tasks_are_begun_once_by_their_owners(rt: HostRuntime) -> Result<(), Fail> {
    let gate = Begun::new();
    let (_blocks, report, runs) = steal(&rt, rt.alloc(), 3, 5, &gate)?;
    assert!(rt; runs == 5);
    for task in 0..5u32 {
        assert!(rt; gate.is_begun_by(task, report.owner(task)));
    }
    Ok(())
}
