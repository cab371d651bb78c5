//! The new rows of a batch in one layer.
ghost use Rattle.std.specs.Prelude.{◌≡◌, ◌+◌, ◌≤◌, IfOk, length, map, take, drop};
ghost use Rattle.batch_insert.specs.Padded.{padded};
ghost use Rattle.hnsw_build.specs.LayeredInsert.{new_row_in};
ghost use Rattle.hnsw_build.specs.Grown.{build_in, layers_in};
ghost use Rattle.hnsw_build.specs.Wanted.{batch_in};

use crate::fresh_batch::FreshBatch;
use ann_shelf::NoMemory;
use std::alloc::Global;
use steal_pool::Blocks;

/// The ids of a batch that are in a layer, in the order of the batch.
pub(crate) fn batch_ids(alloc: Global, batch: &FreshBatch, layer: u8) -> Result<Vec<u32>, NoMemory>
    ensures { IfOk result (λ v. v.items ≡ batch_in (build_in batch.now.layers.now) batch.now.ids.now layer) }
{
    let mut ids = Vec::with_capacity(alloc, batch.ids.len())?;
    for id in batch.ids {
        if batch.layers.plan.levels[*id as usize] >= layer {
            ids.push(*id)?;
        }
    }
    Ok(ids)
}

/// The blocks of their new rows in the layer.
pub(crate) fn batch_blocks(alloc: Global, batch: &FreshBatch, layer: u8) -> Result<Blocks, NoMemory>
    ensures { IfOk result (λ b. b ≡ map (λ p. padded (batch.now.layers.now.plan.now.settings.degree + 1) (new_row_in (build_in batch.now.layers.now) (layers_in batch.now.layers.now) layer p)) (batch_in (build_in batch.now.layers.now) batch.now.ids.now layer)) }
{
    let size = batch.layers.plan.settings.degree as usize + 1;
    let from = layer as usize * size;
    let mut blocks = Vec::with_capacity(alloc, batch.ids.len())?;
    for i in 0..batch.ids.len() {
        if batch.layers.plan.levels[batch.ids[i] as usize] >= layer {
            let block = part_of(alloc, batch.rows[i].as_slice(), from, size)?;
            blocks.push(block)?;
        }
    }
    Ok(Blocks::of(blocks))
}

// A part of words, in memory of its own.
fn part_of(alloc: Global, words: &[u32], from: usize, size: usize) -> Result<Vec<u32>, NoMemory>
    requires { from + size ≤ length words.now }
    ensures { IfOk result (λ v. v.items ≡ take size (drop from words.now)) }
{
    Ok(words[from..from + size].to_vec(alloc)?)
}
