//! HNSW builds of a line of four points, with given levels and with one layer alone.
ghost use Rattle.std.specs.Prelude.{◌≡◌, ◌≤◌, Some, length};

use crate::line::{has_rows, line};
use ann_defs::MAX_WORDS;
use ann_shelf::{FreeGate, NoMemory};
use bin_files::Points;
use graph_rows::{Index, Kind};
use hnsw_build::{Hnsw, HnswPlan, HnswSettings, OrderKind};
use std::alloc::Global;
use std::test::Fail;
use std::thread::Threads;
use steal_pool::SerialRounds;

// In file order, rows of at most 1 and in layer 0 of at most 2, beam 4, no cap that counts.
fn small() -> HnswSettings
    ensures { (result.degree ≡ 1) × (result.beam ≡ 4) × (result.bits ≡ 4) × (result.max_level ≡ 0) × (result.cap ≡ Some 4) }
{
    HnswSettings {
        order: OrderKind::File,
        seed: 0,
        degree: 1,
        beam: 4,
        bits: 4,
        max_level: 0,
        cap: Some(4),
    }
}

// Whether a build has three batches, and each step tells of one more, and a further one of none.
fn goes_in_three<R: Threads + Sync>(
    rt: &R,
    alloc: Global,
    build: &mut Hnsw,
) -> Result<bool, NoMemory>
    requires { build.old.workers ≡ 1 }
{
    let mut told = [false; 4];
    for i in 0..4usize {
        told[i] = build.step(rt, alloc, &mut SerialRounds::new(), &FreeGate)?;
    }
    Ok(told == [true, true, true, false])
}

// The index of a build, where all batches are in.
fn index_of(build: Hnsw) -> Option<Index> {
    if build.batch() != build.total() {
        return None;
    }
    Some(build.into_index())
}

// The index of a plan, where the build has three batches.
fn in_three<R: Threads + Sync>(
    rt: &R,
    alloc: Global,
    plan: &HnswPlan,
) -> Result<Option<Index>, NoMemory> {
    if plan.words() > MAX_WORDS {
        return Ok(None);
    }
    let mut build = Hnsw::new(alloc, plan, 1)?;
    if !goes_in_three(rt, alloc, &mut build)? {
        return Ok(None);
    }
    Ok(index_of(build))
}

// Whether the rows of layer 0 are a chain whose ends and middle were worked out by hand.
fn has_base(index: &Index) -> bool {
    has_rows(&index.base, &[&[1], &[0, 2], &[1], &[1]])
}

// Whether point 1 is alone in layer 1, at which searches start.
fn is_of_two_layers(index: &Index) -> bool {
    if index.upper.len() != 1 {
        return false;
    }
    let head = (index.count, index.dim, index.degree, index.start);
    index.kind == Kind::Hnsw
        && head == (4, 1, 1, 1)
        && index.upper[0].ids() == [1u32].as_slice()
        && index.upper[0].edges() == 0
}

// Whether a plan of the line with these levels has these words, and puts point 1 first.
fn gives_two_layers<R: Threads + Sync>(
    rt: &R,
    alloc: Global,
    points: &Points,
) -> Result<bool, NoMemory>
    requires { length points.now.vectors ≡ 4 }
{
    let levels = vec![in alloc; 0u8, 1, 0, 0]?;
    let plan = HnswPlan::of_levels(alloc, points, small(), levels)?;
    let planned = plan.order.as_slice() == [1u32, 0, 2, 3].as_slice() && plan.words() == 14;
    let index = in_three(rt, alloc, &plan)?;
    Ok(planned && index.is_some_and(|i| is_of_two_layers(&i) && has_base(&i)))
}

#[test]
fn one_point_of_level_one_is_alone_in_its_layer(rt: HostRuntime) -> Result<(), Fail> {
    let points = line(rt.alloc())?;
    assert!(rt; gives_two_layers(&rt, rt.alloc(), &points)?);
    Ok(())
}

// Whether the plan of the line gives one layer.
fn gives_one_layer<R: Threads + Sync>(
    rt: &R,
    alloc: Global,
    points: &Points,
) -> Result<bool, NoMemory> {
    let plan = HnswPlan::make(alloc, points, small())?;
    let index = in_three(rt, alloc, &plan)?;
    Ok(index.is_some_and(|i| i.start == 0 && i.upper.is_empty() && has_base(&i)))
}

#[test]
fn greatest_level_zero_gives_one_layer(rt: HostRuntime) -> Result<(), Fail> {
    let points = line(rt.alloc())?;
    assert!(rt; gives_one_layer(&rt, rt.alloc(), &points)?);
    Ok(())
}
