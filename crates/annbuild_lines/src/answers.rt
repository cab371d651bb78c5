//! The answers of a query, added to a buffer that has room for them.
ghost use Rattle.std.specs.Prelude.{◌≡◌, ◌+◌, ◌*◌, ◌≤◌, ◌++◌, length, codes, vec_len, vec_capacity};
ghost use Rattle.std.specs.List.{flat_map};
ghost use Rattle.annbuild_lines.specs.Lines.{answer_text};
ghost use Rattle.arrayvec.specs.ArrayVec.{array_vec_len};

use crate::Line;
use crate::line::{push_small, push_text};
use ann_defs::Near;
use arrayvec::ArrayVec;

/// Adds for each answer a space, its id, `:` and its squared distance, and ends the line.
pub fn push_answers(buffer: &mut Vec<u8>, answers: &[Near])
    requires { vec_len buffer.old + (22 * length answers.now + 1) ≤ vec_capacity buffer.old }
    ensures items { buffer.new.items ≡ buffer.old.items ++ (flat_map answer_text answers.now ++ codes "\n") }
    ensures capacity { vec_capacity buffer.new ≡ vec_capacity buffer.old }
{
    for near in answers {
        push_piece(buffer, &answer_piece(*near));
    }
    buffer.push_reserved(b'\n');
}

/// A space, an id, a colon and its distance.
fn answer_piece(near: Near) -> Line
    ensures items { result.items ≡ answer_text near }
    ensures short { array_vec_len result ≤ 22 }
{
    let mut piece = ArrayVec::new();
    push_text(&mut piece, " ");
    push_small(&mut piece, near.id);
    push_text(&mut piece, ":");
    push_small(&mut piece, near.dist);
    piece
}

/// Adds a piece to a buffer that has room for it.
pub fn push_piece(buffer: &mut Vec<u8>, piece: &Line)
    requires { vec_len buffer.old + array_vec_len piece.now ≤ vec_capacity buffer.old }
    ensures items { buffer.new.items ≡ buffer.old.items ++ piece.now.items }
    ensures len { vec_len buffer.new ≡ vec_len buffer.old + array_vec_len piece.now }
    ensures capacity { vec_capacity buffer.new ≡ vec_capacity buffer.old }
{
    push_bytes(buffer, piece.as_slice());
}

/// Adds bytes to a buffer that has room for them.
fn push_bytes(buffer: &mut Vec<u8>, bytes: &[u8])
    requires { vec_len buffer.old + length bytes.now ≤ vec_capacity buffer.old }
    ensures items { buffer.new.items ≡ buffer.old.items ++ bytes.now }
    ensures len { vec_len buffer.new ≡ vec_len buffer.old + length bytes.now }
    ensures capacity { vec_capacity buffer.new ≡ vec_capacity buffer.old }
{
    for byte in bytes {
        buffer.push_reserved(*byte);
    }
}
