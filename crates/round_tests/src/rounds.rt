//! The blocks of rounds over each pool.
use crate::squares::{are_squares, run};
use ann_shelf::{FreeGate, NoMemory};
use std::alloc::Global;
use std::test::Fail;
use std::thread::Threads;
use steal_pool::{RayonRounds, Rounds, SerialRounds, StealRounds};

// Whether this pool has so many workers, runs each of five tasks once, and gives their blocks.
fn is_right<R: Threads + Sync, P: Rounds>(
    rt: &R,
    alloc: Global,
    pool: &mut P,
    workers: u32,
) -> Result<bool, NoMemory> {
    let (blocks, runs) = run(rt, alloc, pool, 5, &FreeGate)?;
    Ok(pool.workers() == workers && runs == 5 && are_squares(&blocks, 5))
}

#[test]
fn serial_blocks_are_the_wanted_ones(rt: HostRuntime) -> Result<(), Fail> {
    assert!(rt; is_right(&rt, rt.alloc(), &mut SerialRounds::new(), 1)?);
    Ok(())
}

#[test]
fn rayon_blocks_are_the_wanted_ones(rt: HostRuntime) -> Result<(), Fail> {
    assert!(rt; is_right(&rt, rt.alloc(), &mut RayonRounds::new(3), 3)?);
    assert!(rt; is_right(&rt, rt.alloc(), &mut RayonRounds::new(64), 64)?);
    Ok(())
}

#[test]
fn steal_blocks_are_the_wanted_ones(rt: HostRuntime) -> Result<(), Fail> {
    assert!(rt; is_right(&rt, rt.alloc(), &mut StealRounds::new(3), 3)?);
    assert!(rt; is_right(&rt, rt.alloc(), &mut StealRounds::new(64), 64)?);
    Ok(())
}
