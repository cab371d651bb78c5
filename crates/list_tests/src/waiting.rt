//! A round's tasks that wait for each other's beginning.
ghost use Rattle.neighbour_lists.specs.Held.{BelongTo};

use crate::line::{line, planted};
use ann_shelf::{Gate, NoMemory};
use bin_files::Points;
use neighbour_lists::Lists;
use std::alloc::Global;
use std::sync::atomic::{AtomicU64, Ordering};
use std::test::Fail;
use std::thread::{self, Threads};
use steal_pool::StealRounds;

// How often a task looks for one of the other worker, before it gives up.
const PATIENT: u32 = 50_000_000;

// A gate at which the first task that begins waits until one of the other worker has begun.
#[derive(Drop)]
struct OtherGate {
    // 1 for each of the two workers that has begun a task
    begun: [AtomicU64; 2],
    // how many tasks have begun
    tasks: AtomicU64,
    // 1 where the first task waited in vain
    late: AtomicU64,
}

impl Gate for OtherGate {
    fn task(&self, worker: u32, _task: u32) {
        let own = worker as usize % 2;
        self.begun[own].store(1, Ordering::SeqCst);
        if self.tasks.fetch_add(1, Ordering::SeqCst) != 0 {
            return;
        }
        for _ in 0..PATIENT {
            if self.begun[1 - own].load(Ordering::SeqCst) != 0 {
                return;
            }
            thread::yield_now();
        }
        self.late.store(1, Ordering::SeqCst);
    }

    fn batch(&self, _v: u32) {}

    fn answer(&self, _query: u32) {}
}

// Whether a round of the lists by two workers changes nothing, and neither waits in vain.
fn is_computed_at_once<R: Threads + Sync>(
    rt: &R,
    alloc: Global,
    points: &Points,
    lists: &mut Lists,
) -> Result<bool, NoMemory>
    requires { BelongTo points.now.vectors lists.old }
{
    let gate = OtherGate {
        begun: [AtomicU64::new(0), AtomicU64::new(0)],
        tasks: AtomicU64::new(0),
        late: AtomicU64::new(0),
    };
    let changed = lists.round(rt, alloc, points, &mut StealRounds::new(2), &gate)?;
    Ok(changed == 0 && gate.late.load(Ordering::SeqCst) == 0)
}

#[test]
fn two_workers_compute_lists_at_once(rt: HostRuntime) -> Result<(), Fail> {
    let points = line(rt.alloc())?;
    let mut lists = planted(&rt, rt.alloc(), &points, &mut StealRounds::new(2))?;
    assert!(rt; is_computed_at_once(&rt, rt.alloc(), &points, &mut lists)?);
    Ok(())
}
