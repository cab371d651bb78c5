//! The builder and the callers side by side.
ghost use Rattle.std.specs.Prelude.{◌≡◌, ◌*◌, ◌≤◌, [], true, length, map, replicate, IfOk};
ghost use Rattle.std.specs.List.{All};
ghost use Rattle.ann_defs.specs.Distance.{dim_of};
ghost use Rattle.ann_defs.specs.declared.limits.TheConstants.{MAX_ANSWERS, MAX_BEAM, MAX_CALLERS, MAX_WORKERS};
ghost use Rattle.graph_rows.specs.View.{contents};
ghost use Rattle.graph_rows.specs.WellFormed.{IsWellFormed};
ghost use Rattle.vamana_build.specs.Builds.{batches_of, graph_at};
ghost use Rattle.vamana_build.specs.VamanaIndex.{vamana_index};
ghost use Rattle.versions.specs.Course.{course_of, graph_after, total_of};
ghost use Rattle.versions.specs.Standing.{opening, starting};
ghost use Rattle.live_session.specs.Asked.{AreWhole, Fits};
ghost use Rattle.live_session.specs.Askers.{AreNumbered, ArePlaces, IsPlace, Stands};
ghost use Rattle.live_session.specs.Builder.{AreInStep};
ghost use Rattle.live_session.specs.Lawful.{is_lawful};
ghost use Rattle.live_session.specs.LiveAnswers.{batches_in, last_answers, live_answers};

use crate::answers::LiveAnswers;
use crate::asker::Asker;
use crate::asking::Asking;
use crate::beside::beside;
use crate::gather::{last_of, live_of};
use crate::last_graph::LastGraph;
use crate::rest::settle_all;
use crate::row::AnswerRow;
use crate::seats::{Place, places_for, seated};
use ann_shelf::{Gate, NoMemory};
use graph_rows::{FlatGraph, Index};
use std::alloc::Global;
use std::sync::Wait;
use std::thread::Threads;
use steal_pool::Rounds;
use vamana_build::{Plan, Vamana};
use versions::{Caller, Publisher, share};

/// What a session gives: the index, the first answer to each query, and its answer in the last graph.
#[derive(Drop)]
pub struct Session {
    pub index: Index,
    pub live: LiveAnswers,
    pub last: LiveAnswers,
}

/// Builds the index of a plan on a pool while callers ask.
///
/// Batch v is published before batch v + 1 begins. A caller that is refused an entry stops, and its queries are answered
/// after the joins in the last graph. `gate.answer(j)` is called after the first answer to query j, before the same
/// caller's next query. All memory for answers is taken before the first batch: 8 bytes for each of queries times k
/// answers, twice, and 12 for each query, twice, with a `Scratch` for each caller; the shared graph is held three times.
/// Fails only with `NoMemory`; then nothing is left.
pub fn build_beside_callers<R: Threads + Wait + Sync, P: Rounds, G: Gate + Sync>(
    rt: &R,
    alloc: Global,
    plan: &Plan,
    asking: Asking<'_>,
    pool: &mut P,
    gate: &G,
) -> Result<Session, NoMemory>
    requires dim { dim_of asking.queries.now.vectors ≡ dim_of plan.now.points.now.vectors }
    requires beam { (1 ≤ asking.beam) × (asking.beam ≤ MAX_BEAM) }
    requires k { (1 ≤ asking.k) × (asking.k ≤ asking.beam) }
    requires callers { (1 ≤ asking.callers) × (asking.callers ≤ MAX_CALLERS) }
    requires answers { length asking.queries.now.vectors * asking.k ≤ MAX_ANSWERS }
    requires workers { (1 ≤ P.count pool.old) × (P.count pool.old ≤ MAX_WORKERS) }
    ensures index { IfOk result (λ s. contents s.index ≡ vamana_index plan.now.points.now.vectors plan.now.settings) }
    ensures well_formed { IfOk result (λ s. IsWellFormed (contents s.index)) }
    ensures lawful { IfOk result (λ s. is_lawful asking.entry.callers (total_of (course_of plan.now)) (length asking.entry.queries.now.vectors) (batches_in s.live) ≡ true) }
    ensures live { IfOk result (λ s. s.live ≡ live_answers (course_of plan.now) asking.entry.beam asking.entry.k asking.entry.queries.now.vectors (batches_in s.live)) }
    ensures last { IfOk result (λ s. s.last ≡ last_answers (course_of plan.now) asking.entry.beam asking.entry.k asking.entry.queries.now.vectors) }
{
    let places = places_for(alloc, plan, &asking)?;
    let room = Room::new(alloc, asking.callers)?;
    let mut builder = Vamana::new(alloc, plan, pool.workers())?;
    let first = first_graph(rt, alloc, &mut builder, pool, gate)?;
    let (mut publisher, callers) = share(alloc, plan, first, asking.callers)?;
    let settled = with_callers(
        rt,
        alloc,
        plan,
        &mut builder,
        &mut publisher,
        pool,
        callers,
        places,
        room,
        &asking,
        gate,
    );
    publisher.end(rt);
    let (live, last) = settled?;
    Ok(Session {
        index: builder.into_index(),
        live,
        last,
    })
}

// Room for the lists of the callers and of their rows.
#[derive(Drop)]
struct Room<'p> {
    askers: Vec<Asker<'p>>,
    live: Vec<AnswerRow>,
    last: Vec<AnswerRow>,
}

impl<'p> Room<'p> {
    fn new(alloc: Global, callers: u32) -> Result<Room<'p>, NoMemory>
        ensures askers { IfOk result (λ r. r.askers.items ≡ []) }
        ensures live { IfOk result (λ r. r.live.items ≡ []) }
        ensures last { IfOk result (λ r. r.last.items ≡ []) }
    {
        let askers = Vec::with_capacity(alloc, callers as usize)?;
        let live = Vec::with_capacity(alloc, callers as usize)?;
        let last = Vec::with_capacity(alloc, callers as usize)?;
        Ok(Room { askers, live, last })
    }
}

// Puts the first batch in, and copies the graph after it.
fn first_graph<R: Threads + Sync, P: Rounds, G: Gate + Sync>(
    rt: &R,
    alloc: Global,
    builder: &mut Vamana<'_>,
    pool: &mut P,
    gate: &G,
) -> Result<FlatGraph, NoMemory>
    requires workers { P.count pool.old ≡ builder.old.workers }
    requires none { builder.old.batch ≡ 0 }
    ensures builder { IfOk result (λ _. builder.new ≡ record builder.old { batch = 1 }) }
    ensures total { IfOk result (λ _. 1 ≤ batches_of builder.old.points builder.old.settings) }
    ensures graph { IfOk result (λ g. g ≡ graph_at builder.old.points builder.old.settings 1) }
    ensures workers { P.count pool.new ≡ P.count pool.old }
{
    // There is at least one batch.
    let _total = builder.total();
    let Some(_change) = builder.step(rt, alloc, pool, gate)? else {
        unreachable!()
    };
    Ok(builder.graph().copy(alloc)?)
}

// The answers beside the build, and those in the last graph. All batches are in then, and published.
fn with_callers<'p, R: Threads + Wait + Sync, P: Rounds, G: Gate + Sync>(
    rt: &R,
    alloc: Global,
    plan: &Plan<'_>,
    builder: &mut Vamana<'_>,
    publisher: &mut Publisher<'p>,
    pool: &mut P,
    callers: Vec<Caller<'p>>,
    places: Vec<Place>,
    room: Room<'p>,
    asking: &Asking<'_>,
    gate: &G,
) -> Result<(LiveAnswers, LiveAnswers), NoMemory>
    requires step { AreInStep (course_of plan.now) (P.count pool.old) builder.old publisher.old }
    requires first { builder.old.batch ≡ 1 }
    requires fits { Fits (course_of plan.now) asking.now }
    requires total { 1 ≤ total_of (course_of plan.now) }
    requires callers { callers.items ≡ replicate asking.now.callers (starting (course_of plan.now)) }
    requires count { length places.items ≡ asking.now.callers }
    requires places { All (IsPlace (course_of plan.now) asking.now) places.items }
    requires order { ArePlaces places.items }
    requires askers { room.askers.items ≡ [] }
    requires live { room.live.items ≡ [] }
    requires last { room.last.items ≡ [] }
    ensures points { IfOk result (λ _. builder.new.points ≡ plan.now.points.now.vectors) }
    ensures settings { IfOk result (λ _. builder.new.settings ≡ plan.now.settings) }
    ensures all { IfOk result (λ _. builder.new.batch ≡ total_of (course_of plan.now)) }
    ensures lawful { IfOk result (λ t. is_lawful asking.now.callers (total_of (course_of plan.now)) (length asking.now.queries.now.vectors) (batches_in t.0) ≡ true) }
    ensures live { IfOk result (λ t. t.0 ≡ live_answers (course_of plan.now) asking.now.beam asking.now.k asking.now.queries.now.vectors (batches_in t.0)) }
    ensures last { IfOk result (λ t. t.1 ≡ last_answers (course_of plan.now) asking.now.beam asking.now.k asking.now.queries.now.vectors) }
{
    let Room { askers, live, last } = room;
    let mut askers = seated(plan, asking, callers, places, askers)?;
    beside(
        rt,
        alloc,
        plan,
        builder,
        publisher,
        pool,
        askers.as_mut_slice(),
        asking,
        gate,
    )?;
    settled(plan, builder, publisher, askers, asking, gate, live, last)
}

// The answers of callers that have ended, when all batches are in and published.
fn settled<'p, G: Gate>(
    plan: &Plan<'_>,
    builder: &Vamana<'_>,
    publisher: &mut Publisher<'p>,
    askers: Vec<Asker<'p>>,
    asking: &Asking<'_>,
    gate: &G,
    live: Vec<AnswerRow>,
    last: Vec<AnswerRow>,
) -> Result<(LiveAnswers, LiveAnswers), NoMemory>
    requires fits { Fits (course_of plan.now) asking.now }
    requires points { builder.now.points ≡ plan.now.points.now.vectors }
    requires settings { builder.now.settings ≡ plan.now.settings }
    requires all { builder.now.batch ≡ total_of (course_of plan.now) }
    requires course { publisher.old.course ≡ course_of plan.now }
    requires published { publisher.old.batch ≡ builder.now.batch }
    requires stand { All (Stands (course_of plan.now) asking.now) askers.items }
    requires order { AreNumbered asking.now.callers askers.items }
    requires count { length askers.items ≡ asking.now.callers }
    requires live { live.items ≡ [] }
    requires last { last.items ≡ [] }
    ensures lawful { IfOk result (λ t. is_lawful asking.now.callers (total_of (course_of plan.now)) (length asking.now.queries.now.vectors) (batches_in t.0) ≡ true) }
    ensures live { IfOk result (λ t. t.0 ≡ live_answers (course_of plan.now) asking.now.beam asking.now.k asking.now.queries.now.vectors (batches_in t.0)) }
    ensures last { IfOk result (λ t. t.1 ≡ last_answers (course_of plan.now) asking.now.beam asking.now.k asking.now.queries.now.vectors) }
{
    let graph = LastGraph::of(plan, builder.graph(), builder.batch());
    let (live, last) = settle_all(askers, publisher, asking, &graph, gate, live, last)?;
    Ok((live_of(plan, asking, live), last_of(plan, asking, last)))
}
