//! Small trees. Their leaves were computed by a program that follows the definition step by step.
use ann_shelf::{FreeGate, NoMemory};
use bin_files::Points;
use pivot_trees::Tree;
use std::alloc::Global;
use std::test::Fail;
use std::thread::Threads;
use steal_pool::{RayonRounds, Rounds, SerialRounds, StealRounds};

// Seven points on a line.
fn seven(alloc: Global) -> Result<Points, NoMemory> {
    Ok(Points::from_bytes(1, vec![in alloc; 0u8, 10, 1, 12, 3, 30, 2]?))
}

const LEAVES_OF_SEVEN: [&[u32]; 7] = [&[0, 2], &[1, 3], &[0, 2], &[1, 3], &[4, 6], &[5], &[4, 6]];

// Five equal points.
fn five(alloc: Global) -> Result<Points, NoMemory> {
    Ok(Points::from_bytes(1, vec![in alloc; 9u8, 9, 9, 9, 9]?))
}

// No pivots part equal points: the first half goes left, then the first half of that.
const LEAVES_OF_FIVE: [&[u32]; 5] = [&[0, 1], &[0, 1], &[2], &[3, 4], &[3, 4]];

// Whether a tree with leaves of at most two ids has these leaves, each by its ids.
fn has_leaves<R: Threads + Sync, P: Rounds>(
    rt: &R,
    alloc: Global,
    points: &Points,
    tree: u32,
    seed: u64,
    pool: &mut P,
    leaves: &[&[u32]],
) -> Result<bool, NoMemory> {
    let tree = Tree::grow(rt, alloc, points, tree, seed, 2, pool, &FreeGate)?;
    if tree.count() as usize != leaves.len() {
        return Ok(false);
    }
    for (id, leaf) in leaves.iter().enumerate() {
        if tree.leaf_of(id as u32) != *leaf {
            return Ok(false);
        }
    }
    Ok(true)
}

#[test]
fn each_pool_gives_the_leaves_of_small_trees(rt: HostRuntime) -> Result<(), Fail> {
    let alloc = rt.alloc();
    let seven = seven(alloc)?;
    let mut serial = SerialRounds::new();
    assert!(rt; has_leaves(&rt, alloc, &seven, 0, 0, &mut serial, &LEAVES_OF_SEVEN)?);
    assert!(rt; has_leaves(&rt, alloc, &seven, 1, 7, &mut serial, &LEAVES_OF_SEVEN)?);
    let mut shares = RayonRounds::new(2);
    assert!(rt; has_leaves(&rt, alloc, &seven, 0, 0, &mut shares, &LEAVES_OF_SEVEN)?);
    let mut steal = StealRounds::new(3);
    assert!(rt; has_leaves(&rt, alloc, &seven, 1, 7, &mut steal, &LEAVES_OF_SEVEN)?);
    Ok(())
}

#[test]
fn equal_points_are_parted_by_halves(rt: HostRuntime) -> Result<(), Fail> {
    let five = five(rt.alloc())?;
    let mut serial = SerialRounds::new();
    assert!(rt; has_leaves(&rt, rt.alloc(), &five, 0, 0, &mut serial, &LEAVES_OF_FIVE)?);
    Ok(())
}
