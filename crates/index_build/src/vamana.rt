//! The Vamana index of points.
ghost use Rattle.std.specs.Prelude.{◌≡◌, ◌+◌, ◌*◌, ◌<◌, ◌≤◌, length, IfOk};
ghost use Rattle.ann_defs.specs.declared.limits.TheConstants.{MAX_WORDS, MAX_WORKERS};
ghost use Rattle.graph_rows.specs.View.{contents};
ghost use Rattle.graph_rows.specs.WellFormed.{IsWellFormed};
ghost use Rattle.index_build.specs.IndexOf.{AreForBuild, vamana_of, vamana_words};

use ann_defs::{Alpha, MAX_WORDS};
use ann_shelf::{Gate, NoMemory};
use bin_files::Points;
use command_options::Settings;
use graph_rows::Index;
use std::alloc::Global;
use std::thread::Threads;
use steal_pool::Rounds;
use vamana_build::{Plan, Vamana, VamanaSettings};

/// The settings of the builder.
pub fn settings_for_vamana(options: &Settings) -> VamanaSettings
    requires { AreForBuild options.now }
    ensures order { result.order ≡ options.now.order }
    ensures start { result.start ≡ options.now.start }
    ensures seed { result.seed ≡ options.now.seed }
    ensures degree { result.degree ≡ options.now.degree }
    ensures beam { result.beam ≡ options.now.beam }
    ensures num { result.alpha.num ≡ options.now.num }
    ensures den { result.alpha.den ≡ options.now.den }
    ensures cap { result.cap ≡ options.now.cap }
    ensures passes { result.passes ≡ options.now.passes }
{
    VamanaSettings {
        order: options.order,
        start: options.start,
        seed: options.seed,
        degree: options.degree,
        beam: options.beam,
        alpha: Alpha {
            num: options.num,
            den: options.den,
        },
        cap: options.cap,
        passes: options.passes,
    }
}

/// The words that the rows of the Vamana index of points take.
pub fn words_for_vamana(points: &Points, options: &Settings) -> u64
    ensures { result ≡ vamana_words (length points.now.vectors) options.now }
{
    u64::from(points.count()) * (u64::from(options.degree) + 1)
}

/// Builds the index, batch after batch, on any pool.
pub(crate) fn vamana_index<R: Threads + Sync, P: Rounds, G: Gate + Sync>(
    rt: &R,
    alloc: Global,
    points: &Points,
    options: &Settings,
    pool: &mut P,
    gate: &G,
) -> Result<Index, NoMemory>
    requires options { AreForBuild options.now }
    requires words { vamana_words (length points.now.vectors) options.now ≤ MAX_WORDS }
    requires workers { (1 ≤ P.count pool.old) × (P.count pool.old ≤ MAX_WORKERS) }
    ensures index { IfOk result (λ i. contents i ≡ vamana_of points.now.vectors options.now) }
    ensures well_formed { IfOk result (λ i. IsWellFormed (contents i)) }
{
    let plan = Plan::make(alloc, points, settings_for_vamana(options))?;
    let mut builder = Vamana::new(alloc, &plan, pool.workers())?;
    for _batch in 0..builder.total() {
        let _change = builder.step(rt, alloc, pool, gate)?;
    }
    Ok(builder.into_index())
}
