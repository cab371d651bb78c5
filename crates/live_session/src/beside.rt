//! The builder and the callers at the same time.
ghost use Rattle.std.specs.Prelude.{◌≡◌, length, IfOk};
ghost use Rattle.std.specs.List.{All};
ghost use Rattle.versions.specs.Course.{course_of, total_of};
ghost use Rattle.live_session.specs.Asked.{Fits};
ghost use Rattle.live_session.specs.Askers.{AreNumbered, Stands};
ghost use Rattle.live_session.specs.Builder.{AreInStep};

use crate::asker::Asker;
use crate::asking::Asking;
use crate::builder::build_on;
use ann_defs::MAX_CALLERS;
use ann_shelf::{Gate, NoMemory};
use std::alloc::Global;
use std::sync::Wait;
use std::thread::{Threads, for_each_mut, join_mut};
use steal_pool::Rounds;
use vamana_build::{Plan, Vamana};
use versions::Publisher;

// All callers ask, each in a thread of its own where there is one.
fn ask_everyone<R: Threads + Sync, G: Gate + Sync>(
    rt: &R,
    plan: &Plan<'_>,
    asking: &Asking<'_>,
    gate: &G,
    askers: &mut [Asker<'_>],
)
    requires fits { Fits (course_of plan.now) asking.now }
    requires stand { All (Stands (course_of plan.now) asking.now) askers.old }
    requires order { AreNumbered asking.now.callers askers.old }
    ensures stand { All (Stands (course_of plan.now) asking.now) askers.new }
    ensures order { AreNumbered asking.now.callers askers.new }
{
    for_each_mut(
        rt,
        askers,
        MAX_CALLERS as usize,
        &|_, asker| asker.ask_all(asking, gate),
    );
}

/// The builder puts in and publishes what is left, while the callers ask.
pub(crate) fn beside<R: Threads + Wait + Sync, P: Rounds, G: Gate + Sync>(
    rt: &R,
    alloc: Global,
    plan: &Plan<'_>,
    builder: &mut Vamana<'_>,
    publisher: &mut Publisher<'_>,
    pool: &mut P,
    askers: &mut [Asker<'_>],
    asking: &Asking<'_>,
    gate: &G,
) -> Result<(), NoMemory>
    requires step { AreInStep (course_of plan.now) (P.count pool.old) builder.old publisher.old }
    requires first { builder.old.batch ≡ 1 }
    requires fits { Fits (course_of plan.now) asking.now }
    requires stand { All (Stands (course_of plan.now) asking.now) askers.old }
    requires order { AreNumbered asking.now.callers askers.old }
    ensures step { IfOk result (λ _. AreInStep (course_of plan.now) (P.count pool.new) builder.new publisher.new) }
    ensures all { IfOk result (λ _. builder.new.batch ≡ total_of (course_of plan.now)) }
    ensures stand { All (Stands (course_of plan.now) asking.now) askers.new }
    ensures order { AreNumbered asking.now.callers askers.new }
{
    let ((), built) = join_mut(
        rt,
        &mut ||
            requires fits { Fits (course_of plan.now) asking.now }
            requires stand { All (Stands (course_of plan.now) asking.now) askers.now }
            requires order { AreNumbered asking.now.callers askers.now }
        { ask_everyone(rt, plan, asking, gate, askers) },
        &mut ||
            requires step { AreInStep (course_of plan.now) (P.count pool.now) builder.now publisher.now }
            requires first { builder.now.batch ≡ 1 }
        { build_on(rt, alloc, plan, gate, builder, publisher, pool) },
    );
    built
}
