//! What a batch changes in a layer.
ghost use Rattle.std.specs.Prelude.{◌≡◌, ◌≤◌, ℕ, IfOk, length};
ghost use Rattle.ann_defs.specs.declared.limits.TheConstants.{MAX_DEGREE};
ghost use Rattle.steal_pool.specs.Work.{AllServe};
ghost use Rattle.hnsw_build.specs.Layering.{top_of, is_in};
ghost use Rattle.hnsw_build.specs.LayeredInsert.{row_of_layer, bound_of};
ghost use Rattle.hnsw_build.specs.Grown.{build_in, layers_in, ServesIn};
ghost use Rattle.hnsw_build.specs.Wanted.{change_in};

use crate::fresh_batch::FreshBatch;
use crate::layer_rows::{batch_blocks, batch_ids};
use crate::merges::Merges;
use ann_shelf::{Gate, NoMemory};
use batch_insert::{ChangedRows, FreshRows, changed_rows};
use beam_search::Scratch;
use graph_rows::Rows;
use std::alloc::Global;
use std::thread::Threads;
use steal_pool::{Post, Rounds};

/// The rows of one layer that a batch changes: its new rows there, and the merged rows of their targets, in one round.
///
/// `old` are the rows of the layer.
pub(crate) fn layer_change<R: Threads + Sync, P: Rounds, G: Gate + Sync, O: Rows + Sync>(
    rt: &R,
    alloc: Global,
    pool: &mut P,
    batch: &FreshBatch,
    layer: u8,
    old: &O,
    posts: &mut [Post<Scratch>],
    gate: &G,
) -> Result<ChangedRows, NoMemory>
    requires layer { layer ≤ top_of batch.now.layers.now.plan.now.levels.items }
    requires held { (u : ℕ) → O.held old.now u ≡ is_in batch.now.layers.now.plan.now.levels.items layer u }
    requires old { (u : ℕ) → O.row_of old.now u ≡ row_of_layer (layers_in batch.now.layers.now) layer u }
    requires posts { length posts.old ≡ P.count pool.old }
    requires serve { AllServe (ServesIn batch.now.layers.now) posts.old }
    ensures change { IfOk result (λ c. c ≡ change_in (build_in batch.now.layers.now) (layers_in batch.now.layers.now) batch.now.ids.now layer) }
    ensures serve { AllServe (ServesIn batch.now.layers.now) posts.new }
    ensures workers { P.count pool.new ≡ P.count pool.old }
{
    let ids = batch_ids(alloc, batch, layer)?;
    let blocks = batch_blocks(alloc, batch, layer)?;
    let fresh = FreshRows {
        ids: ids.as_slice(),
        blocks: &blocks,
    };
    let merging = Merges {
        plan: batch.layers.plan,
        bound: row_bound(batch.layers.plan.settings.degree, layer),
    };
    changed_rows(
        rt,
        alloc,
        pool,
        old,
        ids.as_slice(),
        &fresh,
        &merging,
        posts,
        gate,
    )
}

// The greatest length of a row of a layer.
fn row_bound(degree: u32, layer: u8) -> u32
    requires { degree ≤ 64 }
    ensures value { result ≡ bound_of degree layer }
    ensures bound { result ≤ MAX_DEGREE }
{
    if layer == 0 {
        return degree + degree;
    }
    degree
}
