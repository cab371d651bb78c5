//! The merged rows of a batch, as tasks.
ghost use Rattle.std.specs.Prelude.{◌≡◌, ◌+◌, ◌≤◌, ℕ, true};
ghost use Rattle.ann_defs.specs.declared.limits.TheConstants.{MAX_WORDS};
ghost use Rattle.std.proofs.Props.{props};
ghost use Rattle.ann_defs.specs.Ordered.{Has};
ghost use Rattle.batch_insert.specs.Batch.{AreTargets};
ghost use Rattle.batch_insert.specs.Proposing.{targets_of};
ghost use Rattle.batch_insert.specs.Wanted.{merged_blocks};

use crate::block::seal;
use crate::merging::Merging;
use crate::proposals::Proposals;
use graph_rows::Rows;
use steal_pool::Work;

/// How many merges make up for starting a thread: most of them add an id to a row that has room.
const LEAST_MERGES: u32 = 128;

/// A task for each target of the proposals: its row with its sources.
#[derive(Drop)]
pub(crate) struct MergedRows<'a, V: Rows + Sync, M: Merging> {
    pub rows: &'a V,
    pub proposals: &'a Proposals,
    pub merging: &'a M,
    ghost grouped: { proposals.now.grouped ≡ true },
    ghost targets: { AreTargets (M.count merging.now) (M.most merging.now) (V.held rows.now) (V.row_of rows.now) proposals.now.pairs } by { Prim.hlevel props },
    ghost known: { (t : ℕ) → Has (targets_of proposals.now.pairs) t → M.knows merging.now t (V.row_of rows.now t) ≡ true } by { Prim.hlevel props },
    ghost narrow: { M.most merging.now + 1 ≤ MAX_WORDS },
}

impl<'a, V: Rows + Sync, M: Merging> Work for MergedRows<'a, V, M> {
    type Scratch = M::Scratch;

    ghost want = { λ w. merged_blocks (M.merged w.merging.now) (M.most w.merging.now) (V.row_of w.rows.now) w.proposals.now.pairs };

    ghost wide = { λ w. M.most w.merging.now + 1 };

    ghost serves = { λ w s. M.serves w.merging.now s };

    fn tasks(&self) -> u32 {
        self.proposals.targets()
    }

    fn width(&self) -> u32 {
        self.merging.degree() + 1
    }

    fn least(&self) -> u32 {
        LEAST_MERGES
    }

    fn run(&self, scratch: &mut M::Scratch, task: u32, out: &mut [u32]) {
        let target = self.proposals.target(task);
        let row = self.rows.row(target);
        let sources = self.proposals.sources(task);
        let len = self
            .merging
            .merge(scratch, target, row, sources, &mut out[1..]);
        seal(out, len);
    }
}
