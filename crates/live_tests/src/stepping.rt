//! A build by one worker, whose batches are published one after another.
ghost use Rattle.std.specs.Prelude.{◌≡◌, ◌+◌, ◌≤◌, IfOk, IfSome};
ghost use Rattle.std.specs.List.{All};
ghost use Rattle.ann_defs.specs.declared.limits.TheConstants.{MAX_CALLERS};
ghost use Rattle.vamana_build.specs.Builds.{graph_at};
ghost use Rattle.versions.specs.Course.{course_of, LeadsFrom};
ghost use Rattle.versions.specs.Standing.{starting};
ghost use Rattle.live_session.specs.Builder.{AreInStep};

use ann_defs::MAX_CALLERS;
use ann_shelf::{FreeGate, NoMemory};
use graph_rows::FlatGraph;
use std::alloc::Global;
use std::sync::Wait;
use std::thread::Threads;
use steal_pool::SerialRounds;
use vamana_build::{BatchChange, Plan, Vamana};
use versions::{BatchNote, Caller, Publisher, share};

// Puts the first batch in. The graph after it.
fn first_graph<R: Threads + Sync>(
    rt: &R,
    alloc: Global,
    build: &mut Vamana<'_>,
) -> Result<FlatGraph, NoMemory>
    requires workers { build.old.workers ≡ 1 }
    requires none { build.old.batch ≡ 0 }
    ensures build { IfOk result (λ _. build.new ≡ record build.old { batch = 1 }) }
    ensures graph { IfOk result (λ g. g ≡ graph_at build.old.points build.old.settings 1) }
{
    // There is at least one batch.
    let _total = build.total();
    let Some(_change) = build.step(rt, alloc, &mut SerialRounds::new(), &FreeGate)? else {
        unreachable!()
    };
    Ok(build.graph().copy(alloc)?)
}

/// A build with its first batch in, its publisher, and callers.
pub(crate) fn opened<'p, R: Threads + Sync>(
    rt: &R,
    alloc: Global,
    plan: &'p Plan<'p>,
    callers: u32,
) -> Result<(Vamana<'p>, Publisher<'p>, Vec<Caller<'p>>), NoMemory>
    requires { (1 ≤ callers) × (callers ≤ MAX_CALLERS) }
    ensures step { IfOk result (λ t. AreInStep (course_of plan.now) 1 t.0 t.1) }
    ensures callers { IfOk result (λ t. All (λ x. x ≡ starting (course_of plan.now)) t.2.items) }
{
    let mut build = Vamana::new(alloc, plan, 1)?;
    let first = first_graph(rt, alloc, &mut build)?;
    let (publisher, callers) = share(alloc, plan, first, callers)?;
    Ok((build, publisher, callers))
}

// Publishes a change that leads from the last published graph.
fn publish<'p, R: Wait>(
    rt: &R,
    publisher: &mut Publisher<'p>,
    change: BatchChange,
) -> Result<BatchNote<'p>, NoMemory>
    requires { LeadsFrom publisher.old.course publisher.old.batch change }
    ensures course { publisher.new.course ≡ publisher.old.course }
    ensures batch { IfOk result (λ _. publisher.new.batch ≡ publisher.old.batch + 1) }
    ensures note { IfOk result (λ n. n.course ≡ publisher.old.course) }
{
    match publisher.publish(rt, change) {
        Ok(note) => Ok(note),
        Err((fault, _change)) => Err(fault),
    }
}

/// Puts the next batch in and publishes it. A note of it, or None where all batches are in.
pub(crate) fn publish_next<'p, R: Threads + Wait + Sync>(
    rt: &R,
    alloc: Global,
    plan: &Plan<'_>,
    build: &mut Vamana<'_>,
    publisher: &mut Publisher<'p>,
) -> Result<Option<BatchNote<'p>>, NoMemory>
    requires { AreInStep (course_of plan.now) 1 build.old publisher.old }
    ensures step { IfOk result (λ _. AreInStep (course_of plan.now) 1 build.new publisher.new) }
    ensures note { IfOk result (λ o. IfSome o (λ n. n.course ≡ course_of plan.now)) }
{
    let Some(change) = build.step(rt, alloc, &mut SerialRounds::new(), &FreeGate)? else {
        return Ok(None);
    };
    Ok(Some(publish(rt, publisher, change)?))
}

/// Publishes all batches that are left.
pub(crate) fn publish_all<R: Threads + Wait + Sync>(
    rt: &R,
    alloc: Global,
    plan: &Plan<'_>,
    build: &mut Vamana<'_>,
    publisher: &mut Publisher<'_>,
) -> Result<(), NoMemory>
    requires { AreInStep (course_of plan.now) 1 build.old publisher.old }
{
    let total = build.total();
    for _ in 1..total {
        publish_next(rt, alloc, plan, build, publisher)?;
    }
    Ok(())
}
