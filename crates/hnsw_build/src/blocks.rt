//! The new rows of a batch, in rounds.
ghost use Rattle.std.specs.Prelude.{◌≡◌, ◌++◌, ◌<◌, ◌≤◌, IfOk, length, map};
ghost use Rattle.std.specs.List.{All};
ghost use Rattle.ann_defs.specs.declared.limits.TheConstants.{MAX_POINTS};
ghost use Rattle.steal_pool.specs.Work.{AllServe};
ghost use Rattle.hnsw_build.specs.Grown.{build_in, layers_in, ServesIn};
ghost use Rattle.hnsw_build.specs.Wanted.{point_blocks, rows_of_point};

use crate::layers::Layers;
use crate::new_rows::{NewRows, rows_len};
use ann_shelf::{Gate, NoMemory};
use beam_search::Scratch;
use std::alloc::Global;
use std::thread::Threads;
use steal_pool::{Blocks, Post, Rounds};

// How many points have their new rows in one round.
const MAX_TASKS: usize = 4096;

/// The new rows of each point of a batch, in rounds of at most 4,096 points. The layers stay as they are.
pub(crate) fn new_rows<'a, R: Threads + Sync, P: Rounds, G: Gate + Sync>(
    rt: &R,
    alloc: Global,
    pool: &mut P,
    layers: &'a Layers<'a>,
    batch: &'a [u32],
    posts: &mut [Post<Scratch>],
    gate: &G,
) -> Result<Vec<Vec<u32>>, NoMemory>
    requires inside { All (λ p. p < length layers.now.plan.now.points.now.vectors) batch.now }
    requires few { length batch.now ≤ MAX_POINTS }
    requires posts { length posts.old ≡ P.count pool.old }
    requires serve { AllServe (ServesIn layers.now) posts.old }
    ensures rows { IfOk result (λ v. map (λ y. y.items) v.items ≡ map (rows_of_point (build_in layers.now) (layers_in layers.now)) batch.now) }
    ensures serve { AllServe (ServesIn layers.now) posts.new }
    ensures workers { P.count pool.new ≡ P.count pool.old }
{
    let mut rows = Vec::with_capacity(alloc, batch.len())?;
    let mut from = 0;
    while from < batch.len() {
        let to = (from + MAX_TASKS).min(batch.len());
        let work = NewRows {
            layers,
            ids: &batch[from..to],
        };
        let blocks = pool.run_round(rt, alloc, &work, posts, gate)?;
        keep_rows(alloc, layers, &batch[from..to], &blocks, &mut rows)?;
        from = to;
    }
    Ok(rows)
}

// Adds the rows of each point, without the zeros behind them.
fn keep_rows(
    alloc: Global,
    layers: &Layers,
    ids: &[u32],
    blocks: &Blocks,
    rows: &mut Vec<Vec<u32>>,
) -> Result<(), NoMemory>
    requires inside { All (λ p. p < length layers.now.plan.now.points.now.vectors) ids.now }
    requires few { length ids.now ≤ MAX_POINTS }
    requires blocks { blocks.now ≡ point_blocks (build_in layers.now) (layers_in layers.now) ids.now }
    ensures { IfOk result (λ _. map (λ y. y.items) rows.new.items ≡ map (λ y. y.items) rows.old.items ++ map (rows_of_point (build_in layers.now) (layers_in layers.now)) ids.now) }
{
    for i in 0..ids.len() {
        let len = rows_len(layers, ids[i]);
        let row = blocks.get(i as u32)[..len].to_vec(alloc)?;
        rows.push(row)?;
    }
    Ok(())
}
