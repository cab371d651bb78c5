//! What a batch changes in all layers.
ghost use Rattle.std.specs.Prelude.{◌≡◌, ◌+◌, ◌<◌, ◌≤◌, ℕ, [], IfOk, length, map, slice_index_or, vec_len};
ghost use Rattle.std.specs.List.{All, range_with_len};
ghost use Rattle.ann_defs.specs.BatchInsert.{bound_at, batch_at};
ghost use Rattle.ann_defs.specs.Ordered.{Ascends};
ghost use Rattle.batch_insert.specs.Changes.{put_all, put_all_in_layer};
ghost use Rattle.graph_rows.specs.Layers.{Layered};
ghost use Rattle.steal_pool.specs.Work.{AllServe};
ghost use Rattle.hnsw_build.specs.Layering.{top_of};
ghost use Rattle.hnsw_build.specs.Grown.{build_in, layers_in, ServesIn};
ghost use Rattle.hnsw_build.specs.Wanted.{change_in};

use crate::blocks::new_rows;
use crate::fresh_batch::FreshBatch;
use crate::layer_change::layer_change;
use crate::layers::Layers;
use ann_shelf::{Gate, NoMemory};
use batch_insert::{ChangedRows, sort_ids};
use beam_search::Scratch;
use graph_rows::{FlatGraph, Layer};
use std::alloc::Global;
use std::thread::Threads;
use steal_pool::{Post, Rounds};

/// The rows that a batch changes, in each layer.
#[derive(Drop)]
pub(crate) struct BatchChange {
    pub base: ChangedRows,
    pub upper: Vec<ChangedRows>,
}

impl BatchChange {
    /// Puts each changed row into its layer. Takes no memory.
    pub(crate) fn put_into(&self, base: &mut FlatGraph, upper: &mut [Layer])
        requires { length upper.old ≡ vec_len self.now.upper }
        ensures base { base.new ≡ put_all base.old self.now.base }
        ensures upper { (k : ℕ) (d : Layered) → k < length upper.old → slice_index_or upper.new k d ≡ put_all_in_layer (slice_index_or upper.old k d) (slice_index_or self.now.upper.items k []) }
    {
        self.base.put_into(base);
        for k in 0..upper.len() {
            self.upper[k].put_into_layer(&mut upper[k]);
        }
    }
}

/// What the batch after the first `done` changes, whose points stand from `from` to `to` in the order.
pub(crate) fn batch_change<R: Threads + Sync, P: Rounds, G: Gate + Sync>(
    rt: &R,
    alloc: Global,
    pool: &mut P,
    layers: &Layers,
    from: u32,
    to: u32,
    posts: &mut [Post<Scratch>],
    gate: &G,
) -> Result<BatchChange, NoMemory>
    requires from { from ≡ bound_at (length layers.now.plan.now.points.now.vectors) layers.now.plan.now.cap layers.now.done }
    requires to { to ≡ bound_at (length layers.now.plan.now.points.now.vectors) layers.now.plan.now.cap (layers.now.done + 1) }
    requires some { from < to }
    requires within { to ≤ length layers.now.plan.now.points.now.vectors }
    requires posts { length posts.old ≡ P.count pool.old }
    requires serve { AllServe (ServesIn layers.now) posts.old }
    ensures base { IfOk result (λ c. c.base ≡ change_in (build_in layers.now) (layers_in layers.now) (batch_at layers.now.plan.now.order.items layers.now.plan.now.cap (layers.now.done + 1)) 0) }
    ensures upper { IfOk result (λ c. c.upper.items ≡ map (change_in (build_in layers.now) (layers_in layers.now) (batch_at layers.now.plan.now.order.items layers.now.plan.now.cap (layers.now.done + 1))) (range_with_len 1 (top_of layers.now.plan.now.levels.items))) }
    ensures serve { AllServe (ServesIn layers.now) posts.new }
    ensures workers { P.count pool.new ≡ P.count pool.old }
{
    let mut batch = layers.plan.order[from as usize..to as usize].to_vec(alloc)?;
    sort_ids(&mut batch);
    sorted_change(rt, alloc, pool, layers, batch.as_slice(), posts, gate)
}

// What a batch changes whose points are given in ascending order.
fn sorted_change<R: Threads + Sync, P: Rounds, G: Gate + Sync>(
    rt: &R,
    alloc: Global,
    pool: &mut P,
    layers: &Layers,
    batch: &[u32],
    posts: &mut [Post<Scratch>],
    gate: &G,
) -> Result<BatchChange, NoMemory>
    requires inside { All (λ p. p < length layers.now.plan.now.points.now.vectors) batch.now }
    requires ascend { Ascends batch.now }
    requires few { length batch.now ≤ length layers.now.plan.now.points.now.vectors }
    requires posts { length posts.old ≡ P.count pool.old }
    requires serve { AllServe (ServesIn layers.now) posts.old }
    ensures base { IfOk result (λ c. c.base ≡ change_in (build_in layers.now) (layers_in layers.now) batch.now 0) }
    ensures upper { IfOk result (λ c. c.upper.items ≡ map (change_in (build_in layers.now) (layers_in layers.now) batch.now) (range_with_len 1 (top_of layers.now.plan.now.levels.items))) }
    ensures serve { AllServe (ServesIn layers.now) posts.new }
    ensures workers { P.count pool.new ≡ P.count pool.old }
{
    let rows = new_rows(rt, alloc, pool, layers, batch, posts, gate)?;
    let fresh = FreshBatch {
        layers,
        ids: batch,
        rows: rows.as_slice(),
    };
    let base = layer_change(rt, alloc, pool, &fresh, 0, layers.base, posts, gate)?;
    let upper = upper_changes(rt, alloc, pool, &fresh, posts, gate)?;
    Ok(BatchChange { base, upper })
}

// What a batch changes in each layer above the first.
fn upper_changes<R: Threads + Sync, P: Rounds, G: Gate + Sync>(
    rt: &R,
    alloc: Global,
    pool: &mut P,
    batch: &FreshBatch,
    posts: &mut [Post<Scratch>],
    gate: &G,
) -> Result<Vec<ChangedRows>, NoMemory>
    requires posts { length posts.old ≡ P.count pool.old }
    requires serve { AllServe (ServesIn batch.now.layers.now) posts.old }
    ensures changes { IfOk result (λ v. v.items ≡ map (change_in (build_in batch.now.layers.now) (layers_in batch.now.layers.now) batch.now.ids.now) (range_with_len 1 (top_of batch.now.layers.now.plan.now.levels.items))) }
    ensures serve { AllServe (ServesIn batch.now.layers.now) posts.new }
    ensures workers { P.count pool.new ≡ P.count pool.old }
{
    let mut changes = Vec::with_capacity(alloc, batch.layers.upper.len())?;
    for layer in 1..batch.layers.plan.top() + 1 {
        let change = layer_change(
            rt,
            alloc,
            pool,
            batch,
            layer,
            &batch.layers.upper[layer as usize - 1],
            posts,
            gate,
        )?;
        changes.push(change)?;
    }
    Ok(changes)
}
