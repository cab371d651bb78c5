//! The line of a query, added to a buffer that has room for it.
ghost use Rattle.std.specs.Prelude.{◌≡◌, ◌+◌, ◌*◌, ◌^◌, ◌≤◌, ◌++◌, length, decimal, vec_len, vec_capacity};
ghost use Rattle.annbuild_lines.specs.Lines.{query_text};
ghost use Rattle.arrayvec.specs.ArrayVec.{array_vec_len};

use crate::Line;
use crate::answers::{push_answers, push_piece};
use crate::line::push_small;
use ann_defs::Near;
use arrayvec::ArrayVec;

/// The most bytes that the line of a query with so many answers has.
pub fn query_line_bytes(answers: usize) -> usize
    requires { answers ≤ 2 ^ 32 }
    ensures { result ≡ 22 * answers + 11 }
{
    22 * answers + 11
}

/// A number.
fn number_piece(n: u32) -> Line
    ensures items { result.items ≡ decimal n }
    ensures short { array_vec_len result ≤ 10 }
{
    let mut piece = ArrayVec::new();
    push_small(&mut piece, n);
    piece
}

/// Adds the line of a query to a buffer: its number from 0, and for each answer a space, its id, `:` and its squared
/// distance. Takes no memory, since the buffer has room: `query_line_bytes` says how much serves.
pub fn push_query_line(buffer: &mut Vec<u8>, number: u32, answers: &[Near])
    requires { vec_len buffer.old + (22 * length answers.now + 11) ≤ vec_capacity buffer.old }
    ensures items { buffer.new.items ≡ buffer.old.items ++ query_text number answers.now }
    ensures capacity { vec_capacity buffer.new ≡ vec_capacity buffer.old }
{
    push_piece(buffer, &number_piece(number));
    push_answers(buffer, answers);
}
