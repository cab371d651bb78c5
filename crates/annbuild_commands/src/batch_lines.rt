//! Printing the answers of a session, a line for each.
ghost use Rattle.std.specs.Prelude.{◌≡◌, ◌+◌, ◌*◌, ◌^◌, ◌≤◌, ◌<◌, ℕ, List, Some, [], ◌∷◌, ◌++◌, length, slice_index_or, vec_capacity, OnOk, IfErr, IsErrOf};
ghost use Rattle.std.specs.List.{All};
ghost use Rattle.ann_defs.specs.declared.limits.TheConstants.{MAX_POINTS};
ghost use Rattle.ann_shelf.specs.Faults.{Rose};
ghost use Rattle.ann_shelf.specs.Written.{Got};
ghost use Rattle.annbuild_lines.specs.declared.batch_line.Moment.TheVariants.{During, After};
ghost use Rattle.command_shapes.specs.AnswerLines.{numbered_lines};
ghost use Rattle.command_shapes.specs.Ends.{fault_in};
ghost use Rattle.command_shapes.specs.Waiting.{WaitIn};
ghost use Rattle.command_shapes.specs.Writing.{Printed};
ghost use Rattle.annbuild_commands.specs.Living.{batch_line};

use ann_shelf::Out;
use annbuild_lines::{Fault, Moment, batch_line_bytes, push_batch_line};
use command_shapes::{flush, make_room, print};
use live_session::{LiveAnswers, Session};

/// Adds the line of an answer to those that wait in a buffer, which are printed before where they leave too little room.
fn push_answer<O: Out>(
    answers: &LiveAnswers,
    moment: Moment,
    j: u32,
    buffer: &mut Vec<u8>,
    out: &mut O,
) -> Result<(), Fault>
    requires j { j < length answers.now }
    requires few { length (slice_index_or answers.now j (0, [])).1 ≤ 2 ^ 32 }
    requires room { 22 * length (slice_index_or answers.now j (0, [])).1 + 27 ≤ vec_capacity buffer.old }
    ensures waiting { OnOk result ((lines : List (List ℕ)) (had : Got) → WaitIn lines buffer.old.items had (O.got out.old) → WaitIn (lines ++ (batch_line moment j (slice_index_or answers.now j (0, [])) ∷ [])) buffer.new.items had (O.got out.new)) }
    ensures failed { IfErr result (λ fault. (lines rest : List (List ℕ)) (had : Got) → WaitIn lines buffer.old.items had (O.got out.old) → Printed (lines ++ rest) had (O.got out.new) (Some fault)) }
    ensures want { IsErrOf result Fault.NoMemory → Rose (O.got out.old).wants (O.got out.new).wants }
    ensures capacity { vec_capacity buffer.new ≡ vec_capacity buffer.old }
{
    let nears = answers.nears(j);
    make_room(buffer, batch_line_bytes(nears.len()), out)?;
    push_batch_line(buffer, moment, j, answers.batch(j), nears);
    Ok(())
}

/// Prints the lines of answers, numbered from 0, in pieces of as many lines as the buffer has room for.
///
/// It takes no memory: the buffer has room for the longest. What the buffer holds is lost.
fn print_batched<O: Out>(
    answers: &LiveAnswers,
    moment: Moment,
    buffer: &mut Vec<u8>,
    out: &mut O,
) -> Result<(), Fault>
    requires many { length answers.now ≤ MAX_POINTS }
    requires few { All (λ a. length a.1 ≤ 2 ^ 32) answers.now }
    requires room { All (λ a. 22 * length a.1 + 27 ≤ vec_capacity buffer.old) answers.now }
    ensures printed { Printed (numbered_lines (batch_line moment) 0 answers.now) (O.got out.old) (O.got out.new) (fault_in result) }
    ensures want { IsErrOf result Fault.NoMemory → Rose (O.got out.old).wants (O.got out.new).wants }
    ensures capacity { vec_capacity buffer.new ≡ vec_capacity buffer.old }
{
    buffer.clear();
    for j in 0..answers.count() {
        push_answer(answers, moment, j, buffer, out)?;
    }
    flush(buffer, out)
}

/// Prints the line of the index, and the lines of all answers of a session, those in pieces of as many lines as the buffer
/// has room for.
pub(crate) fn print_session<O: Out>(
    session: &Session,
    first: &[u8],
    buffer: &mut Vec<u8>,
    out: &mut O,
) -> Result<(), Fault>
    requires live { (1 ≤ length session.now.live) × (length session.now.live ≤ MAX_POINTS) }
    requires last { (1 ≤ length session.now.last) × (length session.now.last ≤ MAX_POINTS) }
    requires live_few { All (λ a. length a.1 ≤ 2 ^ 32) session.now.live }
    requires last_few { All (λ a. length a.1 ≤ 2 ^ 32) session.now.last }
    requires live_room { All (λ a. 22 * length a.1 + 27 ≤ vec_capacity buffer.old) session.now.live }
    requires last_room { All (λ a. 22 * length a.1 + 27 ≤ vec_capacity buffer.old) session.now.last }
    ensures printed { Printed (first.now ∷ (numbered_lines (batch_line During) 0 session.now.live ++ numbered_lines (batch_line After) 0 session.now.last)) (O.got out.old) (O.got out.new) (fault_in result) }
    ensures want { IsErrOf result Fault.NoMemory → Rose (O.got out.old).wants (O.got out.new).wants }
{
    print(out, first)?;
    print_batched(&session.live, Moment::During, buffer, out)?;
    print_batched(&session.last, Moment::After, buffer, out)
}
