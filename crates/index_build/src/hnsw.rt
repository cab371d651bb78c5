//! The HNSW index of points.
ghost use Rattle.std.specs.Prelude.{◌≡◌, ◌+◌, ◌<◌, ◌≤◌, IfOk};
ghost use Rattle.ann_defs.specs.declared.limits.TheConstants.{MAX_WORDS, MAX_WORKERS};
ghost use Rattle.graph_rows.specs.View.{contents};
ghost use Rattle.graph_rows.specs.WellFormed.{IsWellFormed};
ghost use Rattle.hnsw_build.specs.HnswIndex.{hnsw_index};
ghost use Rattle.hnsw_build.specs.Layering.{words_in};
ghost use Rattle.index_build.specs.IndexOf.{hnsw_settings};

use ann_shelf::{Gate, NoMemory};
use command_options::Settings;
use graph_rows::Index;
use hnsw_build::{Hnsw, HnswPlan, HnswSettings};
use std::alloc::Global;
use std::thread::Threads;
use steal_pool::Rounds;

/// The settings of the builder.
pub(crate) fn settings_for_hnsw(options: &Settings) -> HnswSettings
    requires { options.now.max_level ≤ 15 }
    ensures { result ≡ hnsw_settings options.now }
{
    HnswSettings {
        order: options.order,
        seed: options.seed,
        degree: options.degree,
        beam: options.beam,
        bits: options.bits,
        max_level: options.max_level as u8,
        cap: options.cap,
    }
}

/// Builds the index of a plan, batch after batch, on any pool.
pub(crate) fn layered_index<R: Threads + Sync, P: Rounds, G: Gate + Sync>(
    rt: &R,
    alloc: Global,
    plan: &HnswPlan,
    pool: &mut P,
    gate: &G,
) -> Result<Index, NoMemory>
    requires words { words_in plan.now.levels.items plan.now.settings.degree ≤ MAX_WORDS }
    requires workers { (1 ≤ P.count pool.old) × (P.count pool.old ≤ MAX_WORKERS) }
    ensures index { IfOk result (λ i. contents i ≡ hnsw_index plan.now.points.now.vectors plan.now.settings plan.now.levels.items) }
    ensures well_formed { IfOk result (λ i. IsWellFormed (contents i)) }
{
    let mut builder = Hnsw::new(alloc, plan, pool.workers())?;
    for _batch in 0..builder.total() {
        let _more = builder.step(rt, alloc, pool, gate)?;
    }
    Ok(builder.into_index())
}
