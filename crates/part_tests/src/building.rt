//! Builds of a line of four points.
ghost use Rattle.std.specs.Prelude.{◌≡◌, ◌≤◌, Some};

use crate::line::{has_rows, line};
use ann_shelf::{FreeGate, NoMemory};
use graph_rows::{FlatGraph, Index, Kind, Rows};
use std::alloc::Global;
use std::thread::Threads;
use steal_pool::SerialRounds;
use vamana_build::{Alpha, BatchChange, OrderKind, Plan, StartKind, Vamana, VamanaSettings};

// In file order from the first point, rows of at most 2, beam 4 and factor 1.
fn small(cap: u32, passes: u32) -> VamanaSettings
    ensures { (result.degree ≡ 2) × (result.beam ≡ 4) × (result.cap ≡ Some cap) × (result.passes ≡ passes) }
{
    VamanaSettings {
        order: OrderKind::File,
        start: StartKind::First,
        seed: 0,
        degree: 2,
        beam: 4,
        alpha: Alpha { num: 1, den: 1 },
        cap: Some(cap),
        passes,
    }
}

// What crosses threads beside a build: its plan is shared, it and its changes are sent.
fn assert_crosses_threads<'p>(_plan: &Plan<'p>, _build: &Vamana<'p>) {
    fn assert_sync<T: Sync>() {}
    fn assert_send<T: Send>() {}
    assert_sync::<Plan<'p>>();
    assert_send::<Vamana<'p>>();
    assert_send::<BatchChange>();
}

// Puts the next batch in, by one worker.
fn stepped<R: Threads + Sync>(
    rt: &R,
    alloc: Global,
    build: &mut Vamana,
) -> Result<Option<BatchChange>, NoMemory>
    requires { build.old.workers ≡ 1 }
    ensures { build.new.workers ≡ 1 }
{
    build.step(rt, alloc, &mut SerialRounds::new(), &FreeGate)
}

// Whether the rows of a change are those that the graph has.
fn are_of(change: &BatchChange, graph: &FlatGraph) -> bool {
    for j in 0..change.len() {
        let id = change.id(j);
        if !graph.holds(id) || change.row(j) != graph.row(id) {
            return false;
        }
    }
    true
}

// Puts the next batch in, and its rows into the copy. Its number and how many rows it changes, which are those that the
// graph has then; zeros if all are in.
fn next_batch<R: Threads + Sync>(
    rt: &R,
    alloc: Global,
    build: &mut Vamana,
    copy: &mut FlatGraph,
) -> Result<(u32, u32), NoMemory>
    requires { build.old.workers ≡ 1 }
    ensures { build.new.workers ≡ 1 }
{
    let Some(change) = stepped(rt, alloc, build)? else {
        return Ok((0, 0));
    };
    change.put_into(copy);
    if !are_of(&change, build.graph()) {
        return Ok((0, 0));
    }
    Ok((change.batch(), change.len()))
}

// Whether each batch changes so many rows, and then none is left. They are put into the copy.
fn goes_by<R: Threads + Sync>(
    rt: &R,
    alloc: Global,
    build: &mut Vamana,
    changed: &[u32],
    copy: &mut FlatGraph,
) -> Result<bool, NoMemory>
    requires { build.old.workers ≡ 1 }
{
    let mut batch = 0u32;
    for rows in changed {
        batch = batch.wrapping_add(1);
        if next_batch(rt, alloc, build, copy)? != (batch, *rows) {
            return Ok(false);
        }
    }
    Ok(build.total() == batch && next_batch(rt, alloc, build, copy)? == (0, 0))
}

// Whether this is what an index of the line says.
fn is_of_the_line(index: &Index, rows: &[&[u32]]) -> bool {
    let sizes = (index.count, index.dim, index.degree, index.start);
    index.kind == Kind::Vamana
        && sizes == (4, 1, 2, 0)
        && index.upper.is_empty()
        && has_rows(&index.base, rows)
}

// Whether all batches are in, and the graph and the index have these rows.
fn ends_with(build: Vamana, rows: &[&[u32]]) -> bool {
    if build.batch() != build.total() || !has_rows(build.graph(), rows) {
        return false;
    }
    is_of_the_line(&build.into_index(), rows)
}

// Whether the batches of a plan change so many rows each, and the index and what the changes make have these rows then.
fn is_built_by<R: Threads + Sync>(
    rt: &R,
    alloc: Global,
    plan: &Plan,
    changed: &[u32],
    rows: &[&[u32]],
) -> Result<bool, NoMemory> {
    let mut copy = FlatGraph::new(alloc, 4, 2)?;
    let mut build = Vamana::new(alloc, plan, 1)?;
    assert_crosses_threads(plan, &build);
    let went = goes_by(rt, alloc, &mut build, changed, &mut copy)?;
    Ok(ends_with(build, rows) && went && has_rows(&copy, rows))
}

// The same of a build of the line at this cap in so many passes.
fn is_built<R: Threads + Sync>(
    rt: &R,
    alloc: Global,
    cap: u32,
    passes: u32,
    changed: &[u32],
    rows: &[&[u32]],
) -> Result<bool, NoMemory>
    requires cap { (1 ≤ cap) × (cap ≤ 4) }
    requires passes { (1 ≤ passes) × (passes ≤ 2) }
{
    let points = line(alloc)?;
    let plan = Plan::make(alloc, &points, small(cap, passes))?;
    is_built_by(rt, alloc, &plan, changed, rows)
}

// The rows where points 2 and 3 are put in together, and where each point sees the one before it.
const TOGETHER: [&[u32]; 4] = [&[1], &[0, 2], &[1], &[1]];

const CHAIN: [&[u32]; 4] = [&[1], &[0, 2], &[1, 3], &[2]];

#[test]
fn three_batches_and_then_none(rt: HostRuntime) {
    assert!(rt; is_built(&rt, rt.alloc(), 4, 1, &[0, 2, 3], &TOGETHER) == Ok(true));
}

#[test]
fn batches_of_one_see_each_other(rt: HostRuntime) {
    assert!(rt; is_built(&rt, rt.alloc(), 1, 1, &[0, 2, 2, 2], &CHAIN) == Ok(true));
}

#[test]
fn a_second_pass_goes_on_from_the_rows_of_the_first(rt: HostRuntime) {
    assert!(rt; is_built(&rt, rt.alloc(), 4, 2, &[0, 2, 3, 0, 0, 2], &CHAIN) == Ok(true));
}
