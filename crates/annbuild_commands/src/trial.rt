//! `trial`: points and queries that a number gives, their index and its answers, told in two lines. It touches no file.
ghost use Rattle.std.specs.Prelude.{◌≡◌, ◌⊎◌, ◌*◌, ◌<◌, ◌≤◌, [], ◌∷◌, Some, None, IfOk, IfErr, OnOk, length};
ghost use Rattle.ann_defs.specs.Distance.{dim_of};
ghost use Rattle.ann_defs.specs.declared.limits.TheConstants.{MAX_CELLS};
ghost use Rattle.ann_shelf.specs.Shown.{Shown};
ghost use Rattle.graph_rows.specs.View.{contents};
ghost use Rattle.graph_rows.specs.WellFormed.{IsWellFormed};
ghost use Rattle.command_options.specs.Settings.{IsInRange};
ghost use Rattle.command_options.specs.declared.verb.Verb.TheVariants as verbs;
ghost use Rattle.annbuild_lines.specs.declared.fault.Fault.TheVariants.{NoMemory as NoMemoryFault};
ghost use Rattle.command_shapes.specs.Ends.{Ends, fault_in};
ghost use Rattle.annbuild_commands.specs.IndexTexts.{line_of};
ghost use Rattle.annbuild_commands.specs.Making.{points_made, vectors_made};
ghost use Rattle.annbuild_commands.specs.Querying.{all_answers};
ghost use Rattle.annbuild_commands.specs.Trying.{trying, trial_refusal, index_tried, queries_made, answers_tried, answer_count, dist_total, summary_of};

use crate::index_told::line_of_built;
use crate::made::{points_for, queries_for};
use crate::summed::{Sums, sums_of};
use ann_shelf::{Gate, NoMemory, Out};
use annbuild_lines::{Fault, Line, answered_line};
use annbuild_words::Settings;
use batch_search::{QueryBatch, posts_for};
use bin_files::Points;
use command_shapes::print_both;
use graph_rows::Index;
use index_build::{index_for, pool_for};
use std::alloc::Global;
use std::thread::Threads;
use steal_pool::Rounds;

/// The made points and their index.
#[derive(Drop)]
struct MadeIndex {
    points: Points,
    index: Index,
}

/// Makes the points, and builds their index.
fn tried<R: Threads + Sync, G: Gate + Sync>(
    rt: &R,
    alloc: Global,
    options: &Settings,
    gate: &G,
) -> Result<MadeIndex, Fault>
    requires { IsInRange verbs.Trial options.now }
    ensures fits { OnOk result (trial_refusal options.now ≡ None) }
    ensures few { OnOk result (options.now.count * options.now.dim ≤ MAX_CELLS) }
    ensures points { IfOk result (λ x. x.points ≡ points_made options.now) }
    ensures index { IfOk result (λ x. contents x.index ≡ index_tried options.now) }
    ensures well_formed { IfOk result (λ x. IsWellFormed (contents x.index)) }
    ensures failed { IfErr result (λ fault. (trial_refusal options.now ≡ Some fault) ⊎ (fault ≡ NoMemoryFault)) }
{
    let points = points_for(alloc, options)?;
    let index = index_for(rt, alloc, &points, options, gate)?;
    Ok(MadeIndex { points, index })
}

/// Makes what the workers of a pool need, and answers all queries on it.
fn summed_on<R: Threads + Sync, P: Rounds, G: Gate + Sync>(
    rt: &R,
    alloc: Global,
    batch: &QueryBatch<'_>,
    pool: &mut P,
    gate: &G,
) -> Result<Sums, NoMemory>
    requires some { 0 < length batch.now.queries.now.vectors }
    requires few { length batch.now.queries.now.vectors ≤ 4096 }
    ensures answers { IfOk result (λ s. s.answers ≡ answer_count (all_answers batch.now)) }
    ensures total { IfOk result (λ s. s.total ≡ dist_total (all_answers batch.now)) }
{
    let mut posts = posts_for(alloc, batch.points, batch.beam, pool.workers())?;
    sums_of(rt, alloc, batch, pool, posts.as_mut_slice(), gate)
}

/// Makes the queries, answers them, and tells of their answers.
fn summary<R: Threads + Sync, G: Gate + Sync>(
    rt: &R,
    alloc: Global,
    built: &MadeIndex,
    options: &Settings,
    gate: &G,
) -> Result<Line, NoMemory>
    requires options { IsInRange verbs.Trial options.now }
    requires few { options.now.count * options.now.dim ≤ MAX_CELLS }
    requires points { built.now.points ≡ points_made options.now }
    requires index { contents built.now.index ≡ index_tried options.now }
    requires well_formed { IsWellFormed (contents built.now.index) }
    ensures { IfOk result (λ line. line.items ≡ summary_of (answers_tried options.now)) }
{
    let queries = queries_for(alloc, options)?;
    let batch = QueryBatch::new(
        &built.points,
        &built.index,
        &queries,
        options.search,
        options.k,
    );
    let mut pool = pool_for(options, queries.count());
    let sums = summed_on(rt, alloc, &batch, &mut pool, gate)?;
    Ok(answered_line(queries.count(), sums.answers, sums.total))
}

/// Makes points and queries, builds the index, answers the queries, and tells of both. Nothing is printed before all is
/// computed.
pub(crate) fn trial<R: Threads + Sync, O: Out, G: Gate + Sync>(
    rt: &R,
    alloc: Global,
    options: &Settings,
    out: &mut O,
    gate: &G,
) -> Result<(), Fault>
    requires { IsInRange verbs.Trial options.now }
    // It has no shelf, so what any shelf shows is as it was.
    ensures { (shown : Shown) → Ends (trying options.now) shown shown (O.got out.old) (O.got out.new) (fault_in result) }
{
    let built = tried(rt, alloc, options, gate)?;
    let second = summary(rt, alloc, &built, options, gate)?;
    let first = line_of_built(&built.index);
    print_both(out, first.as_slice(), second.as_slice())
}
