//! Printing answers, a line for each.
ghost use Rattle.std.specs.Prelude.{◌≡◌, ◌+◌, ◌*◌, ◌^◌, ◌<◌, ◌≤◌, ◌++◌, ◌∷◌, ℕ, List, Some, length, slice_index_or, vec_capacity, [], OnOk, IfErr};
ghost use Rattle.ann_defs.specs.declared.limits.TheConstants.{MAX_POINTS};
ghost use Rattle.ann_shelf.specs.Written.{Got};
ghost use Rattle.std.specs.List.{All};
ghost use Rattle.command_shapes.specs.Ends.{fault_in};
ghost use Rattle.command_shapes.specs.Writing.{Printed};
ghost use Rattle.command_shapes.specs.Waiting.{WaitIn};
ghost use Rattle.command_shapes.specs.AnswerLines.{answer_line, lines_from};

use crate::buffer::{flush, make_room};
use ann_defs::Near;
use ann_shelf::Out;
use annbuild_lines::{Fault, push_query_line, query_line_bytes};
use batch_search::Answers;

/// Adds the line of an answer, which is copied to `nears`, to those that wait in a buffer, which are printed before where
/// they leave too little room.
fn push_answer<O: Out>(
    answers: &Answers,
    j: u32,
    number: u32,
    nears: &mut [Near],
    buffer: &mut Vec<u8>,
    out: &mut O,
) -> Result<(), Fault>
    requires j { j < length answers.now }
    requires nears { length (slice_index_or answers.now j []) ≤ length nears.old }
    requires few { length nears.old ≤ 2 ^ 32 }
    requires room { 22 * length nears.old + 11 ≤ vec_capacity buffer.old }
    ensures waiting { OnOk result ((lines : List (List ℕ)) (had : Got) → WaitIn lines buffer.old.items had (O.got out.old) → WaitIn (lines ++ (answer_line number (slice_index_or answers.now j []) ∷ [])) buffer.new.items had (O.got out.new)) }
    ensures failed { IfErr result (λ fault. (lines rest : List (List ℕ)) (had : Got) → WaitIn lines buffer.old.items had (O.got out.old) → Printed (lines ++ rest) had (O.got out.new) (Some fault)) }
    ensures capacity { vec_capacity buffer.new ≡ vec_capacity buffer.old }
{
    let len = answers.answer(j, nears);
    make_room(buffer, query_line_bytes(len), out)?;
    push_query_line(buffer, number, &nears[..len]);
    Ok(())
}

/// Prints the lines of answers, the first with this number, in pieces of as many lines as the buffer has room for.
///
/// It takes no memory: `nears` has room for the longest answer, and the buffer for its line. What the buffer holds is lost.
pub(crate) fn print_answers<O: Out>(
    answers: &Answers,
    first: u32,
    nears: &mut [Near],
    buffer: &mut Vec<u8>,
    out: &mut O,
) -> Result<(), Fault>
    requires numbers { first + length answers.now ≤ MAX_POINTS }
    requires nears { All (λ a. length a ≤ length nears.old) answers.now }
    requires few { length nears.old ≤ 2 ^ 32 }
    requires room { 22 * length nears.old + 11 ≤ vec_capacity buffer.old }
    ensures printed { Printed (lines_from first answers.now) (O.got out.old) (O.got out.new) (fault_in result) }
    ensures capacity { vec_capacity buffer.new ≡ vec_capacity buffer.old }
{
    buffer.clear();
    for j in 0..answers.count() {
        push_answer(answers, j, first + j, nears, buffer, out)?;
    }
    flush(buffer, out)
}
