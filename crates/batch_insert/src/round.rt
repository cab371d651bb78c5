//! One batch: what it changes.
ghost use Rattle.std.specs.Prelude.{◌≡◌, ◌+◌, ◌*◌, ◌≤◌, ◌<◌, ℕ, true, IfOk, length};
ghost use Rattle.std.specs.List.{range_with_len};
ghost use Rattle.ann_defs.specs.BatchInsert.{row_then};
ghost use Rattle.batch_insert.specs.Batch.{IsBatch, laid_over};
ghost use Rattle.batch_insert.specs.Changes.{differing};
ghost use Rattle.batch_insert.specs.Wanted.{merged_blocks};
ghost use Rattle.batch_insert.specs.Proposing.{targets_of};
ghost use Rattle.steal_pool.specs.Work.{AllServe};

use crate::batch::Batch;
use crate::changes::ChangedRows;
use crate::difference::difference;
use crate::merged_rows::MergedRows;
use crate::merging::Merging;
use crate::propose::propose;
use ann_defs::{MAX_POINTS, MAX_WORDS};
use ann_shelf::{Gate, NoMemory};
use graph_rows::Rows;
use std::alloc::Global;
use std::thread::Threads;
use steal_pool::{Blocks, Post, Rounds};

// The merged rows. Where nothing is proposed there is no round.
fn merge_all<R: Threads + Sync, P: Rounds, G: Gate + Sync, V: Rows + Sync, M: Merging>(
    rt: &R,
    alloc: Global,
    pool: &mut P,
    work: &MergedRows<V, M>,
    posts: &mut [Post<M::Scratch>],
    gate: &G,
) -> Result<Blocks, NoMemory>
    requires words { length (targets_of work.now.proposals.now.pairs) * (M.most work.now.merging.now + 1) ≤ MAX_WORDS }
    requires posts { length posts.old ≡ P.count pool.old }
    requires serve { AllServe (M.serves work.now.merging.now) posts.old }
    ensures blocks { IfOk result (λ y. y ≡ merged_blocks (M.merged work.now.merging.now) (M.most work.now.merging.now) (V.row_of work.now.rows.now) work.now.proposals.now.pairs) }
    ensures serve { AllServe (M.serves work.now.merging.now) posts.new }
    ensures workers { P.count pool.new ≡ P.count pool.old }
{
    if work.proposals.targets() == 0 {
        Ok(Blocks::none(alloc))
    } else {
        pool.run_round(rt, alloc, work, posts, gate)
    }
}

/// The rows that a batch changes, where its new rows are given: each target of their reverse edges gets its merged row,
/// in one round with a task for each target. Returns what differs from the rows before.
///
/// `old` are the rows before the batch, of some of the points: a flat graph, or a layer of HNSW. `fresh` holds the
/// batch alone, which is `ids`, ascending. Neither changes. What the merge knows of rows holds of each held id's: of its
/// new row where it is in the batch, else of its row before. `gate.task` is called as by the pool's round. Fails only
/// with `NoMemory`, which leaves nothing, and the posts still serve.
pub fn changed_rows<
    R: Threads + Sync,
    P: Rounds,
    G: Gate + Sync,
    O: Rows + Sync,
    F: Rows + Sync,
    M: Merging,
>(
    rt: &R,
    alloc: Global,
    pool: &mut P,
    old: &O,
    ids: &[u32],
    fresh: &F,
    merging: &M,
    posts: &mut [Post<M::Scratch>],
    gate: &G,
) -> Result<ChangedRows, NoMemory>
    requires batch { IsBatch (M.count merging.now) (M.most merging.now) (O.held old.now) (O.row_of old.now) (F.held fresh.now) (F.row_of fresh.now) ids.now }
    requires known { (u : ℕ) → O.held old.now u ≡ true → M.knows merging.now u (laid_over (O.row_of old.now) (F.held fresh.now) (F.row_of fresh.now) u) ≡ true }
    requires some { 1 ≤ M.count merging.now }
    requires count { M.count merging.now ≤ MAX_POINTS }
    requires words { M.count merging.now * (M.most merging.now + 1) ≤ MAX_WORDS }
    requires posts { length posts.old ≡ P.count pool.old }
    requires serve { AllServe (M.serves merging.now) posts.old }
    ensures rows { IfOk result (λ c. c ≡ differing (O.row_of old.now) (row_then (M.count merging.now) (O.row_of old.now) (F.row_of fresh.now) (F.held fresh.now) (M.merged merging.now)) (range_with_len 0 (M.count merging.now))) }
    ensures serve { AllServe (M.serves merging.now) posts.new }
    ensures workers { P.count pool.new ≡ P.count pool.old }
{
    let batch = Batch {
        old,
        ids,
        fresh,
        merging,
    };
    let mut proposals = propose(alloc, &batch)?;
    proposals.group();
    let work = MergedRows {
        rows: &batch,
        proposals: &proposals,
        merging,
    };
    let merged = merge_all(rt, alloc, pool, &work, posts, gate)?;
    difference(alloc, &batch, &proposals, &merged)
}
