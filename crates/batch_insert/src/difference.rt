//! The rows that differ after a batch.
ghost use Rattle.std.specs.Prelude.{◌≡◌, ◌≤◌, ◌<◌, true, IfOk, length, slice_index};
ghost use Rattle.std.specs.List.{range_with_len};
ghost use Rattle.ann_defs.specs.BatchInsert.{row_then};
ghost use Rattle.ann_defs.specs.Ordered.{ordered};
ghost use Rattle.batch_insert.specs.Batch.{laid_over};
ghost use Rattle.batch_insert.specs.Changes.{differing};
ghost use Rattle.batch_insert.specs.Proposed.{proposed};
ghost use Rattle.batch_insert.specs.Proposing.{pair_cmp, targets_of};
ghost use Rattle.batch_insert.specs.Wanted.{merge_at, merged_blocks};

use crate::batch::Batch;
use crate::block::row_of;
use crate::changes::ChangedRows;
use crate::merging::Merging;
use crate::proposals::Proposals;
use ann_defs::MAX_POINTS;
use ann_shelf::NoMemory;
use graph_rows::Rows;
use std::alloc::Global;
use steal_pool::Blocks;

// The id at a place, or more than any id behind the last.
fn id_at(ids: &[u32], at: usize) -> u32
    ensures here { at < length ids.now → result ≡ slice_index ids.now at }
    ensures behind { length ids.now ≤ at → result ≡ 4294967295 }
{
    if at < ids.len() { ids[at] } else { u32::MAX }
}

// The target at a place, or more than any id behind the last.
fn target_at(proposals: &Proposals, at: u32) -> u32
    requires { proposals.now.grouped ≡ true }
    ensures here { at < length (targets_of proposals.now.pairs) → result ≡ slice_index (targets_of proposals.now.pairs) at }
    ensures behind { length (targets_of proposals.now.pairs) ≤ at → result ≡ 4294967295 }
{
    if at < proposals.targets() {
        proposals.target(at)
    } else {
        u32::MAX
    }
}

// The merged row of target `j`.
fn target_row<'b, O: Rows + Sync, F: Rows + Sync, M: Merging>(
    batch: &Batch<O, F, M>,
    proposals: &Proposals,
    merged: &'b Blocks,
    j: u32,
) -> &'b [u32]
    requires pairs { proposals.now.pairs ≡ ordered pair_cmp (proposed (F.row_of batch.now.fresh.now) batch.now.ids.now) }
    requires merged { merged.now ≡ merged_blocks (M.merged batch.now.merging.now) (M.most batch.now.merging.now) (laid_over (O.row_of batch.now.old.now) (F.held batch.now.fresh.now) (F.row_of batch.now.fresh.now)) proposals.now.pairs }
    requires j { j < length (targets_of proposals.now.pairs) }
    ensures { result.now ≡ row_then (M.count batch.now.merging.now) (O.row_of batch.now.old.now) (F.row_of batch.now.fresh.now) (F.held batch.now.fresh.now) (M.merged batch.now.merging.now) (slice_index (targets_of proposals.now.pairs) j) }
{
    row_of(merged.get(j))
}

/// The ids whose rows differ, in ascending order, with their new rows.
///
/// Only the rows of the batch and of the targets can differ. Both lists ascend, so one pass over them meets each of
/// these ids once, with its row at hand.
pub(crate) fn difference<O: Rows + Sync, F: Rows + Sync, M: Merging>(
    alloc: Global,
    batch: &Batch<O, F, M>,
    proposals: &Proposals,
    merged: &Blocks,
) -> Result<ChangedRows, NoMemory>
    requires count { M.count batch.now.merging.now ≤ MAX_POINTS }
    requires grouped { proposals.now.grouped ≡ true }
    requires pairs { proposals.now.pairs ≡ ordered pair_cmp (proposed (F.row_of batch.now.fresh.now) batch.now.ids.now) }
    requires merged { merged.now ≡ merged_blocks (M.merged batch.now.merging.now) (M.most batch.now.merging.now) (laid_over (O.row_of batch.now.old.now) (F.held batch.now.fresh.now) (F.row_of batch.now.fresh.now)) proposals.now.pairs }
    ensures rows { IfOk result (λ c. c ≡ differing (O.row_of batch.now.old.now) (row_then (M.count batch.now.merging.now) (O.row_of batch.now.old.now) (F.row_of batch.now.fresh.now) (F.held batch.now.fresh.now) (M.merged batch.now.merging.now)) (range_with_len 0 (M.count batch.now.merging.now))) }
{
    let total = batch.ids.len() + proposals.targets() as usize;
    let mut changed = ChangedRows::none(alloc);
    let mut i = 0usize;
    let mut j = 0u32;
    while i + (j as usize) < total {
        let point = id_at(batch.ids, i);
        let target = target_at(proposals, j);
        if target <= point {
            let new = target_row(batch, proposals, merged, j);
            changed.add(alloc, target, new, batch.old_row(target))?;
            i += (point == target) as usize;
            j += 1;
        } else {
            changed.add(alloc, point, batch.fresh_row(i), batch.old_row(point))?;
            i += 1;
        }
    }
    Ok(changed)
}
