//! Eight callers beside a build.
ghost use Rattle.std.specs.Prelude.{◌≡◌};
ghost use Rattle.std.specs.List.{All};
ghost use Rattle.ann_defs.specs.Distance.{dim_of};
ghost use Rattle.versions.specs.Course.{course_of};
ghost use Rattle.live_session.specs.Builder.{AreInStep};
ghost use Rattle.live_tests.specs.Seated.{CanAsk};

use crate::line::plain;
use crate::seat::{Seat, seats_for};
use crate::stepping::{opened, publish_all};
use ann_shelf::NoMemory;
use bin_files::Points;
use seeded_order::made_points;
use std::alloc::Global;
use std::process::Abort;
use std::sync::Wait;
use std::thread::{Threads, for_each_mut, join_mut};
use vamana_build::{Plan, Vamana};
use versions::Publisher;

const CALLERS: u32 = 8;

// How many queries each caller asks.
const QUERIES: u32 = 1000;

// Asks all queries, with beam 16 for 4 ids.
fn ask_all(plan: &Plan<'_>, queries: &Points, seat: &mut Seat<'_>)
    requires dim { dim_of queries.now.vectors ≡ dim_of plan.now.points.now.vectors }
    requires can { CanAsk (course_of plan.now) 16 4 seat.old }
    ensures { CanAsk (course_of plan.now) 16 4 seat.new }
{
    for j in 0..queries.count() {
        seat.ask(plan, queries.at(j), 16, 4);
    }
}

// All callers ask, each in a thread of its own where there is one.
fn ask_everyone<R: Threads + Sync>(
    rt: &R,
    plan: &Plan<'_>,
    queries: &Points,
    seats: &mut [Seat<'_>],
)
    requires dim { dim_of queries.now.vectors ≡ dim_of plan.now.points.now.vectors }
    requires can { All (CanAsk (course_of plan.now) 16 4) seats.old }
    ensures { All (CanAsk (course_of plan.now) 16 4) seats.new }
{
    for_each_mut(
        rt,
        seats,
        CALLERS as usize,
        &|_, seat| ask_all(plan, queries, seat),
    );
}

// All batches are published while the callers ask.
fn beside<R: Threads + Wait + Sync>(
    rt: &R,
    alloc: Global,
    plan: &Plan<'_>,
    queries: &Points,
    build: &mut Vamana<'_>,
    publisher: &mut Publisher<'_>,
    seats: &mut [Seat<'_>],
) -> Result<(), NoMemory>
    requires dim { dim_of queries.now.vectors ≡ dim_of plan.now.points.now.vectors }
    requires step { AreInStep (course_of plan.now) 1 build.old publisher.old }
    requires can { All (CanAsk (course_of plan.now) 16 4) seats.old }
{
    let ((), built) = join_mut(
        rt,
        &mut ||
            requires dim { dim_of queries.now.vectors ≡ dim_of plan.now.points.now.vectors }
            requires can { All (CanAsk (course_of plan.now) 16 4) seats.now }
        { ask_everyone(rt, plan, queries, seats) },
        &mut ||
            requires { AreInStep (course_of plan.now) 1 build.now publisher.now }
        { publish_all(rt, alloc, plan, build, publisher) },
    );
    built
}

// Whether each caller was answered each query, and the batches of its answers never fell.
fn are_answered(seats: &[Seat<'_>]) -> bool {
    for seat in seats {
        if seat.refused() != 0 || seat.answered() != QUERIES || seat.fell() {
            return false;
        }
    }
    seats.len() == CALLERS as usize
}

// Whether all batches of a plan are published while callers ask, and each is answered.
fn serves_all<R: Threads + Wait + Sync + Abort>(
    rt: &R,
    alloc: Global,
    plan: &Plan<'_>,
    queries: &Points,
) -> Result<bool, NoMemory>
    requires { dim_of queries.now.vectors ≡ dim_of plan.now.points.now.vectors }
{
    let (mut build, mut publisher, callers) = opened(rt, alloc, plan, CALLERS)?;
    let mut seats = seats_for(alloc, plan, callers, 16, 4).expect(rt, "memory");
    let built = beside(
        rt,
        alloc,
        plan,
        queries,
        &mut build,
        &mut publisher,
        seats.as_mut_slice(),
    );
    let all = build.batch() == build.total() && publisher.batch() == build.total();
    publisher.end(rt);
    Ok(built.is_ok() && all && are_answered(seats.as_slice()))
}

// Whether this is so of 2,000 made points.
fn serves_all_of_made_points<R: Threads + Wait + Sync + Abort>(
    rt: &R,
    alloc: Global,
) -> Result<bool, NoMemory> {
    let points = made_points(alloc, 2000, 2, 1, 0)?;
    let queries = made_points(alloc, QUERIES, 2, 2, 0)?;
    if points.count() != 2000 || queries.dim() != points.dim() {
        return Ok(false);
    }
    let plan = Plan::make(alloc, &points, plain(8, 16, 20, 1))?;
    serves_all(rt, alloc, &plan, &queries)
}

#[test]
fn eight_callers_beside_a_build_are_never_refused(rt: HostRuntime) {
    assert!(rt; serves_all_of_made_points(&rt, rt.alloc()) == Ok(true));
}
