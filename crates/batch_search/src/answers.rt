//! What a round gives.
ghost use Rattle.std.specs.Prelude.{◌≡◌, ◌<◌, ◌≤◌, [], map, length, take, slice_index_or};
ghost use Rattle.std.specs.List.{All};
ghost use Rattle.batch_search.specs.Blocks.{answer_in, HasAnswer};

use crate::block::read_answer;
use ann_defs::Near;
use std::marker::Model;
use steal_pool::Blocks;

/// The answers of a round, in the order of its queries: for each the nearest that were found, nearest first, with
/// their squared distances to it.
///
/// Memory: `4 * (2 * k + 1)` bytes for each query.
#[derive(Drop)]
pub struct Answers {
    blocks: Blocks,
}

impl Model for Answers {
    ghost use Rattle.std.specs.Prelude.{List, map};
    ghost use Rattle.std.specs.List.{All};
    ghost use Rattle.ann_defs.specs.declared.near.Near.{Near};
    ghost use Rattle.batch_search.specs.Blocks.{answer_in, HasAnswer};

    ghost Value = { List (List Near) };

    ghost view = { λ a. map answer_in a.blocks };

    ghost invariant = { λ a. All HasAnswer a.blocks };
}

impl Answers {
    // The answers in the blocks of a round.
    pub(crate) fn of(blocks: Blocks) -> Answers
        requires { All HasAnswer blocks }
        ensures { result ≡ map answer_in blocks }
    {
        Answers { blocks }
    }

    /// How many answers there are: one for each query of the round.
    pub fn count(&self) -> u32
        ensures { result ≡ length self.now }
    {
        self.blocks.count()
    }

    /// Copies the answer of query `j` of the round to the front of `out`. Returns how many it has.
    ///
    /// It takes no memory. `out` may be longer: what comes after isn't said.
    pub fn answer(&self, j: u32, out: &mut [Near]) -> usize
        requires j { j < length self.now }
        requires room { length (slice_index_or self.now j []) ≤ length out.old }
        ensures answer { take result out.new ≡ slice_index_or self.now j [] }
        ensures count { result ≡ length (slice_index_or self.now j []) }
    {
        read_answer(self.blocks.get(j), out)
    }
}
