//! The splits of lists, as tasks.
ghost use Rattle.std.specs.Prelude.{◌≡◌, ◌+◌, ◌^◌, ◌<◌, ◌≤◌, length};
ghost use Rattle.std.proofs.Props.{props};
ghost use Rattle.ann_defs.specs.declared.limits.TheConstants.{MAX_WORDS};
ghost use Rattle.pivot_trees.specs.Blocks.{lists_of, blocks_from, FitBlocks};

use crate::splitter::Splitter;
use steal_pool::Work;

/// How many ids on their way to a side make up for starting a thread.
const LEAST_IDS: u32 = 16384;

/// A task for each of the lists, which are numbered from `number` on.
#[derive(Drop)]
pub(crate) struct Splits<'a> {
    pub splitter: &'a Splitter<'a>,
    pub number: u64,
    pub lists: &'a [Vec<u32>],
    pub width: u32,
    ghost fit: { FitBlocks (length splitter.now.points.now.vectors) width (lists_of lists.now) } by { Prim.hlevel props },
    ghost wide: { 0 < width },
    ghost numbers: { number + length lists.now < 2 ^ 62 },
    ghost few: { length lists.now ≤ MAX_WORDS },
}

impl<'a> Work for Splits<'a> {
    type Scratch = ();

    ghost want = { λ w. blocks_from w.splitter.now.points.now.vectors w.splitter.now.seed w.splitter.now.tree w.splitter.now.depth w.width w.number (lists_of w.lists.now) };

    ghost wide = { λ w. w.width };

    ghost serves = { λ _ _. Unit {0} };

    fn tasks(&self) -> u32 {
        self.lists.len() as u32
    }

    fn width(&self) -> u32 {
        self.width
    }

    fn least(&self) -> u32 {
        LEAST_IDS / self.width + 1
    }

    fn run(&self, _scratch: &mut (), task: u32, out: &mut [u32]) {
        let list = self.lists[task as usize].as_slice();
        self.splitter
            .split(self.number + u64::from(task), list, out);
    }
}
