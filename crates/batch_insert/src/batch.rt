//! One batch: its new rows over the rows before it.
ghost use Rattle.std.specs.Prelude.{◌≡◌, ◌<◌, ◌≤◌, true, length, slice_index};
ghost use Rattle.std.proofs.Props.{props};
ghost use Rattle.batch_insert.specs.Batch.{IsBatch, laid_over};

use crate::merging::Merging;
use graph_rows::Rows;

/// What a batch changes a graph by: the rows before it, its ids in ascending order with their new rows, and the merge.
///
/// As rows it is the graph with the new rows in their places.
#[derive(Drop)]
pub(crate) struct Batch<'a, O: Rows + Sync, F: Rows + Sync, M: Merging> {
    pub old: &'a O,
    pub ids: &'a [u32],
    pub fresh: &'a F,
    pub merging: &'a M,
    ghost fits: { IsBatch (M.count merging.now) (M.most merging.now) (O.held old.now) (O.row_of old.now) (F.held fresh.now) (F.row_of fresh.now) ids.now } by { Prim.hlevel props },
}

impl<'a, O: Rows + Sync, F: Rows + Sync, M: Merging> Batch<'a, O, F, M> {
    // The new row of id `i` of the batch.
    pub(crate) fn fresh_row(&self, i: usize) -> &[u32]
        requires { i < length self.now.ids.now }
        ensures value { result.now ≡ F.row_of self.now.fresh.now (slice_index self.now.ids.now i) }
        ensures short { length result.now ≤ M.most self.now.merging.now }
    {
        self.fresh.row(self.ids[i])
    }

    // The row before the batch of an id that is held.
    pub(crate) fn old_row(&self, id: u32) -> &[u32]
        requires { O.held self.now.old.now id ≡ true }
        ensures { result.now ≡ O.row_of self.now.old.now id }
    {
        self.old.row(id)
    }
}

impl<'a, O: Rows + Sync, F: Rows + Sync, M: Merging> Rows for Batch<'a, O, F, M> {
    ghost held = { λ b. O.held b.old.now };

    ghost row_of = { λ b. laid_over (O.row_of b.old.now) (F.held b.fresh.now) (F.row_of b.fresh.now) };

    fn holds(&self, id: u32) -> bool {
        self.old.holds(id)
    }

    fn row(&self, id: u32) -> &[u32] {
        if self.fresh.holds(id) {
            self.fresh.row(id)
        } else {
            self.old.row(id)
        }
    }
}
