//! The line of an answer beside a build.
ghost use Rattle.std.specs.Prelude.{◌≡◌, ◌+◌, ◌*◌, ◌^◌, ◌≤◌, ◌++◌, length, codes, decimal, vec_len, vec_capacity};
ghost use Rattle.annbuild_lines.specs.Lines.{moment_word, batch_text};
ghost use Rattle.arrayvec.specs.ArrayVec.{array_vec_len};

use crate::Line;
use crate::answers::{push_answers, push_piece};
use crate::line::{push_small, push_text};
use ann_defs::Near;
use arrayvec::ArrayVec;

/// When a query was answered: while the index was being built, or once all batches were in.
#[derive(Clone, Copy, Debug, PartialEq, Eq)]
pub enum Moment {
    During,
    After,
}

/// The most bytes that the line of a query with so many answers has.
pub fn batch_line_bytes(answers: usize) -> usize
    requires { answers ≤ 2 ^ 32 }
    ensures { result ≡ 22 * answers + 27 }
{
    22 * answers + 27
}

/// The word of a moment.
fn moment_text(moment: Moment) -> &'static str
    ensures word { result.now ≡ moment_word moment }
    ensures len { length result.now ≡ 4 }
{
    match moment {
        Moment::During => "live",
        Moment::After => "last",
    }
}

/// The word of a moment, a query's number and a batch.
fn moment_piece(moment: Moment, number: u32, batch: u32) -> Line
    ensures items { result.items ≡ moment_word moment ++ (codes " " ++ decimal number) ++ (codes " " ++ decimal batch) }
    ensures short { array_vec_len result ≤ 26 }
{
    let mut piece = ArrayVec::new();
    push_text(&mut piece, moment_text(moment));
    push_text(&mut piece, " ");
    push_small(&mut piece, number);
    push_text(&mut piece, " ");
    push_small(&mut piece, batch);
    piece
}

/// Adds the line of an answer to a buffer: `live` or `last`, the query's number from 0, the batch that it was answered in,
/// and for each answer a space, its id, `:` and its squared distance. Takes no memory, since the buffer has room:
/// `batch_line_bytes` says how much serves.
pub fn push_batch_line(
    buffer: &mut Vec<u8>,
    moment: Moment,
    number: u32,
    batch: u32,
    answers: &[Near],
)
    requires { vec_len buffer.old + (22 * length answers.now + 27) ≤ vec_capacity buffer.old }
    ensures items { buffer.new.items ≡ buffer.old.items ++ batch_text moment number batch answers.now }
    ensures capacity { vec_capacity buffer.new ≡ vec_capacity buffer.old }
{
    push_piece(buffer, &moment_piece(moment, number, batch));
    push_answers(buffer, answers);
}
