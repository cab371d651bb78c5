//! Answers with the batches that they are of.
ghost use Rattle.std.specs.Prelude.{◌≡◌, ◌<◌, ◌≤◌, [], length, map, slice_index_or};
ghost use Rattle.ann_defs.specs.declared.limits.TheConstants.{MAX_CALLERS};
ghost use Rattle.live_session.specs.SideBySide.{AreFull, side_by_side};

use crate::row::AnswerRow;
use ann_defs::{MAX_CALLERS, Near};
use std::marker::Model;

/// Of each query the batch in which it was answered, and its answer: ids with their squared distances, nearest first.
#[derive(Drop)]
pub struct LiveAnswers {
    count: u32,
    // Of each caller; query j was asked by caller j modulo their number.
    rows: Vec<AnswerRow>,
}

impl Model for LiveAnswers {
    ghost use Rattle.std.specs.Prelude.{ℕ, ◌≤◌, List, [], length, map};
    ghost use Rattle.ann_defs.specs.declared.near.Near.{Near};
    ghost use Rattle.ann_defs.specs.declared.limits.TheConstants.{MAX_CALLERS};
    ghost use Rattle.live_session.specs.SideBySide.{AreFull, side_by_side};

    ghost Value = { List (ℕ × List Near) };

    ghost view = { λ a. side_by_side (map (λ r. r.answers) a.rows.items) a.count (0, []) };

    ghost invariant = { λ a. (1 ≤ length a.rows.items) × (length a.rows.items ≤ MAX_CALLERS) × AreFull (map (λ r. r.answers) a.rows.items) a.count };
}

impl LiveAnswers {
    // So many answers, which the rows of the callers hold side by side.
    pub(crate) fn of(count: u32, rows: Vec<AnswerRow>) -> LiveAnswers
        requires rows { (1 ≤ length rows.items) × (length rows.items ≤ MAX_CALLERS) }
        requires full { AreFull (map (λ r. r.answers) rows.items) count }
        ensures { result ≡ side_by_side (map (λ r. r.answers) rows.items) count (0, []) }
    {
        LiveAnswers { count, rows }
    }

    /// How many queries were answered.
    pub fn count(&self) -> u32
        ensures { result ≡ length self.now }
    {
        self.count
    }

    /// The batch in which query `j` was answered.
    pub fn batch(&self, j: u32) -> u32
        requires { j < length self.now }
        ensures { result ≡ (slice_index_or self.now j (0, [])).0 }
    {
        let (row, place) = self.place_of(j);
        row.batch(place)
    }

    /// The answer to query `j`.
    pub fn nears(&self, j: u32) -> &[Near]
        requires { j < length self.now }
        ensures { result.now ≡ (slice_index_or self.now j (0, [])).1 }
    {
        let (row, place) = self.place_of(j);
        row.nears(place)
    }

    // The row of the caller that asked query `j`, and the place of the answer in it.
    fn place_of(&self, j: u32) -> (&AnswerRow, usize)
        requires { j < length self.now }
        ensures place { result.1 < length result.0.now.answers }
        ensures answer { slice_index_or result.0.now.answers result.1 (0, []) ≡ slice_index_or self.now j (0, []) }
    {
        let callers = self.rows.len();
        let place = j as usize;
        (&self.rows[place % callers], place / callers)
    }
}
