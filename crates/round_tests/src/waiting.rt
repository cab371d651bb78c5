//! Tasks that wait for each other's beginning, which tell the pools apart.
use crate::squares::{run, run_by, steal};
use ann_defs::Way;
use ann_shelf::{Gate, NoMemory};
use std::alloc::Global;
use std::sync::atomic::{AtomicU64, Ordering};
use std::test::Fail;
use std::thread::{self, Threads};
use steal_pool::{Pool, RayonRounds, Rounds, SerialRounds, StealRounds};

// How often a task looks for one that is to come, before it gives up.
const PATIENT: u32 = 50_000_000;

// How often a task looks for one that never comes.
const HASTY: u32 = 1000;

// A gate at which a task may wait until another task has begun.
#[derive(Drop)]
struct WaitGate {
    // which task each of the first four waits for
    waits_for: [Option<u32>; 4],
    looks: u32,
    // of each task, 1 more than the worker that began it
    begun: [AtomicU64; 4],
    // 1 where a task waited in vain
    late: AtomicU64,
}

impl WaitGate {
    fn new(waits_for: [Option<u32>; 4], looks: u32) -> WaitGate {
        WaitGate {
            waits_for,
            looks,
            begun: [
                AtomicU64::new(0),
                AtomicU64::new(0),
                AtomicU64::new(0),
                AtomicU64::new(0),
            ],
            late: AtomicU64::new(0),
        }
    }

    // Two tasks that wait for each other.
    fn of_two() -> WaitGate {
        WaitGate::new([Some(1), Some(0), None, None], PATIENT)
    }

    // Of the shares 0, 1 and 2, 3 each first task waits: 0 for its neighbour, and 2 for 0.
    fn of_neighbours(looks: u32) -> WaitGate {
        WaitGate::new([Some(1), None, Some(0), None], looks)
    }

    fn is_late(&self) -> bool {
        self.late.load(Ordering::SeqCst) == 1
    }

    fn is_begun_by(&self, task: u32, worker: u32) -> bool {
        self.begun[task as usize % 4].load(Ordering::SeqCst) == u64::from(worker) + 1
    }
}

impl Gate for WaitGate {
    fn task(&self, worker: u32, task: u32) {
        let at = task as usize % 4;
        self.begun[at].store(u64::from(worker) + 1, Ordering::SeqCst);
        let Some(other) = self.waits_for[at] else {
            return;
        };
        for _ in 0..self.looks {
            if self.begun[other as usize % 4].load(Ordering::SeqCst) != 0 {
                return;
            }
            thread::yield_now();
        }
        self.late.store(1, Ordering::SeqCst);
    }

    fn batch(&self, _v: u32) {}

    fn answer(&self, _query: u32) {}
}

// Whether a round of four tasks over this pool has the held up neighbour begun by its other worker.
fn steals<R: Threads + Sync, P: Rounds>(
    rt: &R,
    alloc: Global,
    pool: &mut P,
) -> Result<bool, NoMemory> {
    let gate = WaitGate::of_neighbours(PATIENT);
    run(rt, alloc, pool, 4, &gate)?;
    Ok(!gate.is_late() && gate.is_begun_by(1, 1))
}

// Whether it leaves the neighbour to worker 0, which waits in vain, while this one begins the task after it.
fn leaves_to_its_own<R: Threads + Sync, P: Rounds>(
    rt: &R,
    alloc: Global,
    pool: &mut P,
    next: u32,
) -> Result<bool, NoMemory> {
    let gate = WaitGate::of_neighbours(HASTY);
    run(rt, alloc, pool, 4, &gate)?;
    Ok(gate.is_late() && gate.is_begun_by(1, 0) && gate.is_begun_by(2, next))
}

#[test]
fn two_tasks_of_a_round_run_at_once(rt: HostRuntime) -> Result<(), Fail> {
    let gate = WaitGate::of_two();
    let (_blocks, report, _runs) = steal(&rt, rt.alloc(), 2, 2, &gate)?;
    assert!(rt; !gate.is_late());
    assert!(rt; report.swept() == 0);
    Ok(())
}

#[test]
fn two_tasks_of_a_steal_pool_run_at_once(rt: HostRuntime) -> Result<(), Fail> {
    let gate = WaitGate::of_two();
    run(&rt, rt.alloc(), &mut StealRounds::new(2), 2, &gate)?;
    assert!(rt; !gate.is_late());
    Ok(())
}

#[test]
fn a_round_has_a_held_up_neighbour_stolen(rt: HostRuntime) -> Result<(), Fail> {
    let gate = WaitGate::of_neighbours(PATIENT);
    let (_blocks, report, _runs) = steal(&rt, rt.alloc(), 2, 4, &gate)?;
    assert!(rt; !gate.is_late());
    assert!(rt; report.owner(1) == 1);
    Ok(())
}

#[test]
fn steal_pools_have_a_held_up_neighbour_stolen(rt: HostRuntime) -> Result<(), Fail> {
    let alloc = rt.alloc();
    assert!(rt; steals(&rt, alloc, &mut StealRounds::new(2))?);
    assert!(rt; steals(&rt, alloc, &mut Pool::new(Way::Stealing, 2))?);
    Ok(())
}

#[test]
fn rayon_pools_leave_each_share_to_its_worker(rt: HostRuntime) -> Result<(), Fail> {
    let alloc = rt.alloc();
    assert!(rt; leaves_to_its_own(&rt, alloc, &mut RayonRounds::new(2), 1)?);
    assert!(rt; leaves_to_its_own(&rt, alloc, &mut Pool::new(Way::Shares, 2), 1)?);
    Ok(())
}

#[test]
fn serial_pools_run_all_as_worker_0(rt: HostRuntime) -> Result<(), Fail> {
    let alloc = rt.alloc();
    assert!(rt; leaves_to_its_own(&rt, alloc, &mut SerialRounds::new(), 0)?);
    let mut pool = Pool::new(Way::Serial, 2);
    assert!(rt; pool.workers() == 1);
    assert!(rt; leaves_to_its_own(&rt, alloc, &mut pool, 0)?);
    Ok(())
}

#[test]
fn a_round_of_few_tasks_is_run_by_its_caller(rt: HostRuntime) -> Result<(), Fail> {
    let alloc = rt.alloc();
    let mut pool = Pool::new(Way::Stealing, 2).sparing();
    let gate = WaitGate::of_neighbours(HASTY);
    run_by(&rt, alloc, &mut pool, 4, 3, &gate)?;
    assert!(rt; gate.is_late() && gate.is_begun_by(1, 0) && gate.is_begun_by(2, 0));
    let gate = WaitGate::of_neighbours(PATIENT);
    run_by(&rt, alloc, &mut pool, 4, 2, &gate)?;
    assert!(rt; !gate.is_late() && gate.is_begun_by(1, 1));
    Ok(())
}
