//! What the new rows of a batch propose.
ghost use Rattle.std.specs.Prelude.{◌≡◌, ◌*◌, ◌+◌, ◌≤◌, ◌++◌, IfOk, false, length};
ghost use Rattle.ann_defs.specs.declared.limits.TheConstants.{MAX_PAIRS};
ghost use Rattle.batch_insert.specs.Proposed.{pairs_of, proposed};

use crate::batch::Batch;
use crate::merging::Merging;
use crate::proposals::Proposals;
use ann_shelf::NoMemory;
use graph_rows::Rows;
use std::alloc::Global;

// Adds that p is proposed to each of the row.
fn propose_row(proposals: &mut Proposals, p: u32, row: &[u32])
    requires grouped { proposals.old.grouped ≡ false }
    requires room { length proposals.old.pairs + length row.now ≤ proposals.old.room }
    ensures { proposals.new ≡ record proposals.old { pairs = proposals.old.pairs ++ pairs_of p row.now } }
{
    for t in row {
        proposals.add(*t, p);
    }
}

/// What the new rows propose: each point of the batch to each of its new row.
pub(crate) fn propose<O: Rows + Sync, F: Rows + Sync, M: Merging>(
    alloc: Global,
    batch: &Batch<O, F, M>,
) -> Result<Proposals, NoMemory>
    requires { length batch.now.ids.now * M.most batch.now.merging.now ≤ MAX_PAIRS }
    ensures { IfOk result (λ q. (q.pairs ≡ proposed (F.row_of batch.now.fresh.now) batch.now.ids.now) × (q.grouped ≡ false)) }
{
    let degree = batch.merging.degree();
    let mut proposals = Proposals::with_room(alloc, batch.ids.len() as u64 * degree as u64)?;
    for i in 0..batch.ids.len() {
        propose_row(&mut proposals, batch.ids[i], batch.fresh_row(i));
    }
    Ok(proposals)
}
