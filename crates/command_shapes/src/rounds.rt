//! Answering queries in rounds, and printing a line for each.
ghost use Rattle.std.specs.Prelude.{◌≡◌, ◌+◌, ◌<◌, length, IfOk};
ghost use Rattle.steal_pool.specs.Work.{AllServe};
ghost use Rattle.batch_search.specs.Answers.{round_of, round_size};
ghost use Rattle.command_shapes.specs.Ends.{fault_in};
ghost use Rattle.command_shapes.specs.Writing.{Printed};
ghost use Rattle.command_shapes.specs.AnswerLines.{lines_from};
ghost use Rattle.command_shapes.specs.Rooms.{AreFor};

use crate::buffer::PIECE;
use crate::lines::print_answers;
use ann_defs::Near;
use ann_shelf::{Gate, NoMemory, Out};
use annbuild_lines::{Fault, query_line_bytes};
use batch_search::{Answering, MAX_TASKS, answer_round};
use std::alloc::Global;
use std::thread::Threads;
use steal_pool::{Post, Rounds};

/// Room for one answer, and for a piece of lines, or for the answer's line where that is longer.
#[derive(Drop)]
struct Rooms {
    nears: Vec<Near>,
    buffer: Vec<u8>,
}

/// Answers one round of queries and prints their lines. The answer is the number of the next query.
fn print_next<R: Threads + Sync, P: Rounds, A: Answering, O: Out, G: Gate + Sync>(
    rt: &R,
    alloc: Global,
    batch: &A,
    from: u32,
    pool: &mut P,
    posts: &mut [Post<A::Scratch>],
    rooms: &mut Rooms,
    out: &mut O,
    gate: &G,
) -> Result<u32, Fault>
    requires from { from < length (A.answers batch.now) }
    requires posts { length posts.old ≡ P.count pool.old }
    requires serve { AllServe (A.serves batch.now) posts.old }
    requires rooms { AreFor (A.longest batch.now) rooms.old }
    ensures next { IfOk result (λ next. next ≡ from + round_size (length (A.answers batch.now)) from) }
    ensures printed { Printed (lines_from from (round_of (A.answers batch.now) from)) (O.got out.old) (O.got out.new) (fault_in result) }
    ensures serve { AllServe (A.serves batch.now) posts.new }
    ensures workers { P.count pool.new ≡ P.count pool.old }
    ensures rooms { AreFor (A.longest batch.now) rooms.new }
{
    let left = batch.count() - from;
    let answers = answer_round(rt, alloc, pool, batch, from, posts, gate)?;
    print_answers(&answers, from, &mut rooms.nears, &mut rooms.buffer, out)?;
    Ok(from + MAX_TASKS.min(left))
}

/// Answers all queries, round after round, and prints a line for each. It takes memory for the rounds alone.
fn print_rounds<R: Threads + Sync, P: Rounds, A: Answering, O: Out, G: Gate + Sync>(
    rt: &R,
    alloc: Global,
    batch: &A,
    pool: &mut P,
    posts: &mut [Post<A::Scratch>],
    rooms: &mut Rooms,
    out: &mut O,
    gate: &G,
) -> Result<(), Fault>
    requires posts { length posts.old ≡ P.count pool.old }
    requires serve { AllServe (A.serves batch.now) posts.old }
    requires rooms { AreFor (A.longest batch.now) rooms.old }
    ensures { Printed (lines_from 0 (A.answers batch.now)) (O.got out.old) (O.got out.new) (fault_in result) }
{
    let count = batch.count();
    let mut from = 0;
    while from < count {
        from = print_next(rt, alloc, batch, from, pool, posts, rooms, out, gate)?;
    }
    Ok(())
}

/// The rooms for answers of a batch.
fn rooms_for<A: Answering>(alloc: Global, batch: &A) -> Result<Rooms, NoMemory>
    ensures { IfOk result (AreFor (A.longest batch.now)) }
{
    let longest = batch.longest() as usize;
    let nears = vec![in alloc; Near { dist: 0, id: 0 }; longest]?;
    let buffer = Vec::with_capacity(alloc, PIECE.max(query_line_bytes(longest)))?;
    Ok(Rooms { nears, buffer })
}

/// Answers all queries on a pool, in rounds of at most 4,096, and prints a line for each as its round ends, in pieces of up
/// to `PIECE` bytes.
///
/// Besides what `answer_round` takes, it takes memory for one answer and a piece, or the answer's line where that is longer.
pub fn answer_and_print<R: Threads + Sync, P: Rounds, A: Answering, O: Out, G: Gate + Sync>(
    rt: &R,
    alloc: Global,
    batch: &A,
    pool: &mut P,
    posts: &mut [Post<A::Scratch>],
    out: &mut O,
    gate: &G,
) -> Result<(), Fault>
    requires posts { length posts.old ≡ P.count pool.old }
    requires serve { AllServe (A.serves batch.now) posts.old }
    ensures { Printed (lines_from 0 (A.answers batch.now)) (O.got out.old) (O.got out.new) (fault_in result) }
{
    let mut rooms = rooms_for(alloc, batch)?;
    print_rounds(rt, alloc, batch, pool, posts, &mut rooms, out, gate)
}
