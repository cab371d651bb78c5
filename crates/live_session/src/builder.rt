//! The builder's side: batch after batch.
ghost use Rattle.std.specs.Prelude.{◌≡◌, ◌+◌, IfOk};
ghost use Rattle.versions.specs.Course.{course_of, total_of, LeadsFrom};
ghost use Rattle.live_session.specs.Builder.{AreInStep};

use ann_shelf::{Gate, NoMemory};
use std::alloc::Global;
use std::sync::Wait;
use std::thread::Threads;
use steal_pool::Rounds;
use vamana_build::{BatchChange, Plan, Vamana};
use versions::Publisher;

// Publishes a change that leads from the last published graph.
fn publish<R: Wait>(
    rt: &R,
    publisher: &mut Publisher<'_>,
    change: BatchChange,
) -> Result<(), NoMemory>
    requires { LeadsFrom publisher.old.course publisher.old.batch change }
    ensures course { publisher.new.course ≡ publisher.old.course }
    ensures batch { IfOk result (λ _. publisher.new.batch ≡ publisher.old.batch + 1) }
{
    match publisher.publish(rt, change) {
        Ok(_note) => Ok(()),
        Err((fault, _change)) => Err(fault),
    }
}

/// Puts all further batches in, one after another, and publishes each before the next begins. Stops at want of memory.
pub(crate) fn build_on<R: Threads + Wait + Sync, P: Rounds, G: Gate + Sync>(
    rt: &R,
    alloc: Global,
    plan: &Plan<'_>,
    gate: &G,
    builder: &mut Vamana<'_>,
    publisher: &mut Publisher<'_>,
    pool: &mut P,
) -> Result<(), NoMemory>
    requires step { AreInStep (course_of plan.now) (P.count pool.old) builder.old publisher.old }
    requires first { builder.old.batch ≡ 1 }
    ensures step { IfOk result (λ _. AreInStep (course_of plan.now) (P.count pool.new) builder.new publisher.new) }
    ensures all { IfOk result (λ _. builder.new.batch ≡ total_of (course_of plan.now)) }
{
    let total = builder.total();
    for _ in 1..total {
        let Some(change) = builder.step(rt, alloc, pool, gate)? else {
            unreachable!()
        };
        publish(rt, publisher, change)?;
    }
    Ok(())
}
