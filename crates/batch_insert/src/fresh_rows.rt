//! The new rows of a batch, as a round gave them.
ghost use Rattle.std.specs.Prelude.{◌≡◌, ◌+◌, ◌≤◌, ◌<◌, length, slice_index};
ghost use Rattle.ann_defs.specs.declared.limits.TheConstants.{MAX_POINTS};
ghost use Rattle.std.specs.List.{All};
ghost use Rattle.ann_defs.specs.Graph.{has};
ghost use Rattle.ann_defs.specs.Ordered.{Ascends};
ghost use Rattle.batch_insert.specs.Padded.{row_by_id};

use crate::block::row_of;
use graph_rows::{Rows, place_of};
use steal_pool::Blocks;

/// The rows of ids that ascend, in the blocks of a round with a task for each of them, in their order.
///
/// They are read in place, and an id's row is found by binary search. Takes no memory.
#[derive(Drop)]
pub struct FreshRows<'a> {
    pub ids: &'a [u32],
    pub blocks: &'a Blocks,
    pub ghost ascend: { Ascends ids.now },
    pub ghost count: { length blocks.now ≡ length ids.now },
    pub ghost few: { length ids.now ≤ MAX_POINTS },
    pub ghost whole: { All (λ block. slice_index block 0 + 1 ≤ length block) blocks.now },
}

impl<'a> Rows for FreshRows<'a> {
    ghost held = { λ r u. has r.ids.now u };

    ghost row_of = { λ r u. row_by_id r.ids.now r.blocks.now u };

    fn holds(&self, id: u32) -> bool {
        place_of(self.ids, id).is_some()
    }

    fn row(&self, id: u32) -> &[u32] {
        match place_of(self.ids, id) {
            Some(i) => row_of(self.blocks.get(i as u32)),
            None => &[],
        }
    }
}
