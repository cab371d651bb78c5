//! The answers of a round, as tasks.
ghost use Rattle.std.specs.Prelude.{◌≡◌, ◌+◌, ◌*◌, ◌<◌, ◌≤◌, length, map};
ghost use Rattle.ann_defs.specs.declared.limits.TheConstants.{MAX_BEAM, MAX_POINTS};
ghost use Rattle.std.specs.List.{All};
ghost use Rattle.batch_search.specs.Answers.{round_of, round_size};
ghost use Rattle.batch_search.specs.Blocks.{block_of};

use crate::answering::Answering;
use steal_pool::{LEAST_SEARCHES, Work};

/// The greatest number of queries in a round.
pub const MAX_TASKS: u32 = 4096;

/// A task for each query of a round: `len` queries from `from` on.
#[derive(Drop)]
pub(crate) struct RoundTasks<'a, A: Answering> {
    pub batch: &'a A,
    pub from: u32,
    pub len: u32,
    pub longest: u32,
    ghost size: { len ≡ round_size (length (A.answers batch.now)) from },
    ghost fits: { from + len ≤ length (A.answers batch.now) },
    ghost small: { from + len ≤ MAX_POINTS },
    ghost wide: { longest ≡ A.longest batch.now },
    ghost narrow: { longest ≤ MAX_BEAM },
}

impl<'a, A: Answering> Work for RoundTasks<'a, A> {
    type Scratch = A::Scratch;

    ghost want = { λ w. map (block_of (2 * A.longest w.batch.now + 1)) (round_of (A.answers w.batch.now) w.from) };

    ghost wide = { λ w. 2 * A.longest w.batch.now + 1 };

    ghost serves = { λ w s. A.serves w.batch.now s };

    fn tasks(&self) -> u32 {
        self.len
    }

    fn width(&self) -> u32 {
        2 * self.longest + 1
    }

    fn least(&self) -> u32 {
        LEAST_SEARCHES
    }

    fn run(&self, scratch: &mut A::Scratch, task: u32, out: &mut [u32]) {
        self.batch.answer(scratch, self.from + task, out);
    }
}

/// The round from `from` on.
pub(crate) fn round_from<'a, A: Answering>(batch: &'a A, from: u32) -> RoundTasks<'a, A>
    requires { from < length (A.answers batch.now) }
    ensures batch { result.batch.now ≡ batch.now }
    ensures from { result.from ≡ from }
    ensures small { A.longest batch.now ≤ 1024 }
    ensures short { All (λ nears. length nears ≤ A.longest batch.now) (A.answers batch.now) }
{
    let len = (batch.count() - from).min(MAX_TASKS);
    let longest = batch.longest();
    RoundTasks {
        batch,
        from,
        len,
        longest,
    }
}
