//! `live`: the index of a file of points, built while callers ask it.
ghost use Rattle.std.specs.Prelude.{◌≡◌, ◌+◌, ◌*◌, ◌≤◌, IfOk, vec_capacity};
ghost use Rattle.command_options.specs.Settings.{IsInRange};
ghost use Rattle.command_options.specs.declared.verb.Verb.TheVariants as verbs;
ghost use Rattle.command_shapes.specs.Ends.{Ends, fault_in};
ghost use Rattle.graph_rows.specs.Stamps.{stamped};
ghost use Rattle.graph_rows.specs.View.{contents};
ghost use Rattle.annbuild_commands.specs.Living.{living, telling, AreAsked, AreForLive, IsSession};

use crate::batch_lines::print_session;
use crate::index_told::line_of_built;
use crate::live_inputs::{LiveInputs, read_live};
use ann_shelf::{Gate, NoMemory, Out, Shelf};
use annbuild_lines::{Fault, batch_line_bytes};
use annbuild_words::{Request, Role, Settings};
use command_shapes::{PIECE, store};
use graph_rows::Stamp;
use index_build::{pool_for, settings_for_vamana, stamp_for};
use live_session::{Asking, Session, build_beside_callers};
use std::alloc::Global;
use std::sync::Wait;
use std::thread::Threads;
use steal_pool::Rounds;
use vamana_build::Plan;

/// A session whose index has a stamp, or none.
fn marked(mut session: Session, stamp: Option<Stamp>) -> Session
    ensures index { contents result.index ≡ stamped stamp (contents session.index) }
    ensures live { result.live ≡ session.live }
    ensures last { result.last ≡ session.last }
{
    session.index.stamp = stamp;
    session
}

/// Builds the index on a pool while callers ask.
fn session_on<R: Threads + Wait + Sync, P: Rounds, G: Gate + Sync>(
    rt: &R,
    alloc: Global,
    inputs: &LiveInputs,
    options: &Settings,
    pool: &mut P,
    gate: &G,
) -> Result<Session, NoMemory>
    requires inputs { AreForLive inputs.now.points.vectors inputs.now.queries.vectors options.now }
    requires workers { (1 ≤ P.count pool.old) × (P.count pool.old ≤ 64) }
    ensures { IfOk result (IsSession inputs.now.points inputs.now.queries.vectors options.now) }
{
    let plan = Plan::make(alloc, &inputs.points, settings_for_vamana(options))?;
    let asking = Asking {
        queries: &inputs.queries,
        beam: options.search,
        k: options.k,
        callers: options.callers,
    };
    let session = build_beside_callers(rt, alloc, &plan, asking, pool, gate)?;
    Ok(marked(session, stamp_for(&inputs.points, options)))
}

/// A session, and room for the lines of its answers.
#[derive(Drop)]
struct Heard {
    session: Session,
    buffer: Vec<u8>,
}

/// Takes room for a piece of lines, or for a line where that is longer, and builds the index on the pool that settings ask
/// for while callers ask.
fn make_session<R: Threads + Wait + Sync, G: Gate + Sync>(
    rt: &R,
    alloc: Global,
    inputs: &LiveInputs,
    options: &Settings,
    gate: &G,
) -> Result<Heard, NoMemory>
    requires { AreForLive inputs.now.points.vectors inputs.now.queries.vectors options.now }
    ensures session { IfOk result (λ h. IsSession inputs.now.points inputs.now.queries.vectors options.now h.session) }
    ensures asked { IfOk result (λ h. AreAsked options.now h.session) }
    ensures room { IfOk result (λ h. 22 * options.now.k + 27 ≤ vec_capacity h.buffer) }
{
    let longest = batch_line_bytes(options.k as usize);
    let buffer = Vec::with_capacity(alloc, PIECE.max(longest))?;
    let mut pool = pool_for(options, inputs.points.count());
    let session = session_on(rt, alloc, inputs, options, &mut pool, gate)?;
    Ok(Heard { session, buffer })
}

/// Builds the index of points while callers ask, stores it, and tells of it and of their answers.
fn told_live<R: Threads + Wait + Sync, F: Shelf, O: Out, G: Gate + Sync>(
    rt: &R,
    alloc: Global,
    inputs: &LiveInputs,
    options: &Settings,
    name: &str,
    shelf: &mut F,
    out: &mut O,
    gate: &G,
) -> Result<(), Fault>
    requires { AreForLive inputs.now.points.vectors inputs.now.queries.vectors options.now }
    ensures { Ends (telling inputs.now.points inputs.now.queries.vectors name.now options.now) (F.shown shelf.old) (F.shown shelf.new) (O.got out.old) (O.got out.new) (fault_in result) }
{
    let Heard {
        session,
        mut buffer,
    } = make_session(rt, alloc, inputs, options, gate)?;
    let told = line_of_built(&session.index);
    store(shelf, Role::Index, name, &session.index)?;
    print_session(&session, told.as_slice(), &mut buffer, out)
}

/// Builds the index of a file of points while callers ask it, stores it, and tells of it and of their answers.
pub(crate) fn live<R: Threads + Wait + Sync, F: Shelf, O: Out, G: Gate + Sync>(
    rt: &R,
    alloc: Global,
    request: &Request<'_>,
    shelf: &mut F,
    out: &mut O,
    gate: &G,
) -> Result<(), Fault>
    requires { IsInRange verbs.Live request.now.settings }
    ensures { Ends (living request.now.names.first.now request.now.names.second.now request.now.names.third.now request.now.settings) (F.shown shelf.old) (F.shown shelf.new) (O.got out.old) (O.got out.new) (fault_in result) }
{
    let inputs = read_live(alloc, request, shelf)?;
    told_live(
        rt,
        alloc,
        &inputs,
        &request.settings,
        request.names.second,
        shelf,
        out,
        gate,
    )
}
