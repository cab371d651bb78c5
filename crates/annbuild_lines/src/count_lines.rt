//! The lines that tell of made points and of the answers of a trial.
ghost use Rattle.std.specs.Prelude.{◌≡◌};
ghost use Rattle.annbuild_lines.specs.Lines.{made_text, answered_text};

use crate::Line;
use crate::line::{push_field, push_text};
use arrayvec::ArrayVec;

/// The line of made points: `made count N dim D`.
pub fn made_line(count: u32, dim: u32) -> Line
    ensures { result.items ≡ made_text count dim }
{
    let mut line = ArrayVec::new();
    push_text(&mut line, "made");
    push_field(&mut line, " count ", u64::from(count));
    push_field(&mut line, " dim ", u64::from(dim));
    push_text(&mut line, "\n");
    line
}

/// The line of all answers of a trial: `queries Q answers A total T`, where T is the sum of their squared distances.
pub fn answered_line(queries: u32, answers: u64, total: u64) -> Line
    ensures { result.items ≡ answered_text queries answers total }
{
    let mut line = ArrayVec::new();
    push_field(&mut line, "queries ", u64::from(queries));
    push_field(&mut line, " answers ", answers);
    push_field(&mut line, " total ", total);
    push_text(&mut line, "\n");
    line
}
