//! The index that settings ask for.
ghost use Rattle.std.specs.Prelude.{◌≡◌, ◌⊎◌, ◌≤◌, Some, None, length, IfOk, IfErr, OnOk};
ghost use Rattle.ann_defs.specs.declared.limits.TheConstants.{MAX_WORKERS};
ghost use Rattle.graph_rows.specs.View.{contents};
ghost use Rattle.graph_rows.specs.WellFormed.{IsWellFormed};
ghost use Rattle.annbuild_lines.specs.declared.fault.Fault.TheVariants.{NoMemory};
ghost use Rattle.index_build.specs.Built.{IsBuilt};
ghost use Rattle.index_build.specs.IndexOf.{AreForBuild, index_by, index_of, words_of};
ghost use Rattle.index_build.specs.Limits.{words_refusal};

use crate::hnsw::{layered_index, settings_for_hnsw};
use crate::limits::{check_words, pool_for};
use crate::nnd::{settings_for_nnd, words_for_nnd};
use crate::stamp::stamp_for;
use crate::vamana::{vamana_index, words_for_vamana};
use ann_defs::Kind;
use ann_shelf::Gate;
use annbuild_lines::Fault;
use bin_files::Points;
use command_options::Settings;
use graph_rows::Index;
use hnsw_build::HnswPlan;
use nn_descent::build_nnd;
use std::alloc::Global;
use std::thread::Threads;
use steal_pool::Rounds;

/// The index but for its stamp, if its rows take no more words than may be. A plan of layers is made before their words are
/// known.
fn plain_index<R: Threads + Sync, P: Rounds, G: Gate + Sync>(
    rt: &R,
    alloc: Global,
    pool: &mut P,
    points: &Points,
    options: &Settings,
    gate: &G,
) -> Result<Index, Fault>
    requires options { AreForBuild options.now }
    requires workers { (1 ≤ P.count pool.old) × (P.count pool.old ≤ MAX_WORKERS) }
    ensures { IsBuilt (words_of (length points.now.vectors) options.now) (index_by options.now.kind points.now.vectors options.now) result }
{
    match options.kind {
        Kind::Vamana => {
            check_words(words_for_vamana(points, options))?;
            Ok(vamana_index(rt, alloc, points, options, pool, gate)?)
        }
        Kind::Hnsw => {
            let plan = HnswPlan::make(alloc, points, settings_for_hnsw(options))?;
            check_words(plan.words())?;
            Ok(layered_index(rt, alloc, &plan, pool, gate)?)
        }
        Kind::Nnd => {
            check_words(words_for_nnd(points.count(), options))?;
            let settings = settings_for_nnd(options);
            Ok(build_nnd(rt, alloc, points, settings, pool, gate)?)
        }
    }
}

/// Builds the index of points, of the kind that settings ask for, with the stamp that they ask for. It fails if the rows
/// would take more words than may be, and with want of memory.
pub fn index_for<R: Threads + Sync, G: Gate + Sync>(
    rt: &R,
    alloc: Global,
    points: &Points,
    options: &Settings,
    gate: &G,
) -> Result<Index, Fault>
    requires { AreForBuild options.now }
    ensures fits { OnOk result (words_refusal (words_of (length points.now.vectors) options.now) ≡ None) }
    ensures index { IfOk result (λ i. contents i ≡ index_of points.now options.now) }
    ensures well_formed { IfOk result (λ i. IsWellFormed (contents i)) }
    ensures failed { IfErr result (λ fault. (words_refusal (words_of (length points.now.vectors) options.now) ≡ Some fault) ⊎ (fault ≡ NoMemory)) }
{
    let mut pool = pool_for(options, points.count());
    let index = plain_index(rt, alloc, &mut pool, points, options, gate)?;
    Ok(index.with_stamp(stamp_for(points, options)))
}
