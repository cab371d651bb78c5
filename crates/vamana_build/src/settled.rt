//! How many ids at the front of each row one prune left together.
ghost use Rattle.std.specs.Prelude.{◌≡◌, ◌<◌, true, false, length};
ghost use Rattle.std.specs.List.{range_with_len};
ghost use Rattle.ann_defs.specs.BatchInsert.{last_row_of, new_row_of};
ghost use Rattle.ann_defs.specs.Graph.{has, row_in};
ghost use Rattle.ann_defs.specs.Ordered.{Ascends};
ghost use Rattle.batch_insert.specs.Batch.{laid_over};
ghost use Rattle.batch_insert.specs.Changes.{differing};
ghost use Rattle.vamana_build.specs.Builds.{build_by};
ghost use Rattle.vamana_build.specs.Wanted.{new_blocks};
ghost use Rattle.vamana_build.specs.Settled.{begins, laid_count, AreSettled};

use crate::new_rows::NewRows;
use batch_insert::{ChangedRows, FreshRows};
use graph_rows::{Rows, place_of};

/// How many ids at the front of the row of an id, as the batch lays it, one prune left together: all of a new row, else
/// as many as are counted.
pub(crate) fn count_of(batch: &[u32], counts: &[u8], id: u32, row: &[u32]) -> usize
    requires ascend { Ascends batch.now }
    requires id { id < length counts.now }
    ensures value { result ≡ laid_count batch.now counts.now id row.now }
    ensures small { length row.now < 256 → result < 256 }
{
    if place_of(batch, id).is_some() {
        row.len()
    } else {
        counts[id as usize] as usize
    }
}

/// Brings the counts on after a batch: where a changed row begins with the row as the batch laid it, its sources were
/// added, and the count is that of the laid row; else it is a prune's, and all of it is counted.
pub(crate) fn settle(rows: &NewRows, fresh: &FreshRows, changed: &ChangedRows, counts: &mut [u8])
    requires ids { fresh.now.ids.now ≡ rows.now.batch.now }
    requires blocks { fresh.now.blocks.now ≡ new_blocks (build_by rows.now.plan.now.points.now.vectors rows.now.plan.now.settings rows.now.alpha) rows.now.graph.now.rows rows.now.batch.now }
    requires changed { changed.now ≡ differing (row_in rows.now.graph.now.rows) (last_row_of (build_by rows.now.plan.now.points.now.vectors rows.now.plan.now.settings rows.now.alpha) rows.now.graph.now.rows rows.now.batch.now) (range_with_len 0 (length rows.now.plan.now.points.now.vectors)) }
    requires settled { AreSettled (build_by rows.now.plan.now.points.now.vectors rows.now.plan.now.settings rows.now.alpha) (row_in rows.now.graph.now.rows) counts.old }
    ensures settled { AreSettled (build_by rows.now.plan.now.points.now.vectors rows.now.plan.now.settings rows.now.alpha) (last_row_of (build_by rows.now.plan.now.points.now.vectors rows.now.plan.now.settings rows.now.alpha) rows.now.graph.now.rows rows.now.batch.now) counts.new }
{
    for j in 0..changed.len() {
        let id = changed.id(j);
        let row = changed.row(j);
        let laid = laid_row(&*rows, &*fresh, id);
        let before = count_of(rows.batch, counts, id, laid);
        counts[id as usize] = count_after(row, laid, before);
    }
}

// The row of an id as the batch lays it.
fn laid_row<'b>(rows: &'b NewRows, fresh: &'b FreshRows, id: u32) -> &'b [u32]
    requires ids { fresh.now.ids.now ≡ rows.now.batch.now }
    requires blocks { fresh.now.blocks.now ≡ new_blocks (build_by rows.now.plan.now.points.now.vectors rows.now.plan.now.settings rows.now.alpha) rows.now.graph.now.rows rows.now.batch.now }
    requires id { id < length rows.now.graph.now.rows }
    ensures { result.now ≡ laid_over (row_in rows.now.graph.now.rows) (has rows.now.batch.now) (new_row_of (build_by rows.now.plan.now.points.now.vectors rows.now.plan.now.settings rows.now.alpha) rows.now.graph.now.rows) id }
{
    if fresh.holds(id) {
        return fresh.row(id);
    }
    rows.graph.row(id)
}

// How many ids at the front of a changed row one prune left together, where these are so many of the row as it was laid.
fn count_after(row: &[u32], laid: &[u32], before: usize) -> u8
    requires row { length row.now < 256 }
    requires before { before < 256 }
    ensures added { begins row.now laid.now ≡ true → result ≡ before }
    ensures pruned { begins row.now laid.now ≡ false → result ≡ length row.now }
{
    if row.starts_with(laid) {
        before as u8
    } else {
        row.len() as u8
    }
}
