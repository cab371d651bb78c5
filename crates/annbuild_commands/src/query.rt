//! `query`: the nearest points of each query of a file, one line for each.
ghost use Rattle.std.specs.Prelude.{◌≡◌, None};
ghost use Rattle.graph_rows.specs.View.{contents};
ghost use Rattle.graph_rows.specs.WellFormed.{IsWellFormed};
ghost use Rattle.batch_search.specs.Answers.{answers_of};
ghost use Rattle.command_options.specs.Settings.{IsInRange};
ghost use Rattle.command_options.specs.declared.verb.Verb.TheVariants as verbs;
ghost use Rattle.command_shapes.specs.Ends.{Ends, fault_in};
ghost use Rattle.command_shapes.specs.Writing.{Printed};
ghost use Rattle.command_shapes.specs.AnswerLines.{lines_from};
ghost use Rattle.annbuild_commands.specs.Fitting.{unfit_in};
ghost use Rattle.annbuild_commands.specs.Querying.{querying, all_answers};

use crate::inputs::{Inputs, read_inputs};
use ann_shelf::{Gate, Out, Shelf};
use annbuild_lines::Fault;
use annbuild_words::{Request, Settings};
use batch_search::{QueryBatch, posts_for};
use command_shapes::answer_and_print;
use index_build::pool_for;
use std::alloc::Global;
use std::thread::Threads;
use steal_pool::Rounds;

/// Makes what the workers of a pool need, and answers all queries on it.
fn answer_on<R: Threads + Sync, P: Rounds, O: Out, G: Gate + Sync>(
    rt: &R,
    alloc: Global,
    batch: &QueryBatch<'_>,
    pool: &mut P,
    out: &mut O,
    gate: &G,
) -> Result<(), Fault>
    ensures { Printed (lines_from 0 (all_answers batch.now)) (O.got out.old) (O.got out.new) (fault_in result) }
{
    let mut posts = posts_for(alloc, batch.points, batch.beam, pool.workers())?;
    answer_and_print(rt, alloc, batch, pool, posts.as_mut_slice(), out, gate)
}

/// Answers the queries of inputs that fit together.
fn answered<R: Threads + Sync, O: Out, G: Gate + Sync>(
    rt: &R,
    alloc: Global,
    inputs: &Inputs,
    options: &Settings,
    out: &mut O,
    gate: &G,
) -> Result<(), Fault>
    requires options { IsInRange verbs.Query options.now }
    requires well_formed { IsWellFormed (contents inputs.now.indexed.index) }
    requires fit { unfit_in inputs.now.indexed.points (contents inputs.now.indexed.index) inputs.now.queries.vectors ≡ None }
    ensures { Printed (lines_from 0 (answers_of inputs.now.indexed.points.vectors (contents inputs.now.indexed.index) options.now.search options.now.k inputs.now.queries.vectors)) (O.got out.old) (O.got out.new) (fault_in result) }
{
    let batch = QueryBatch::new(
        &inputs.indexed.points,
        &inputs.indexed.index,
        &inputs.queries,
        options.search,
        options.k,
    );
    let mut pool = pool_for(options, inputs.queries.count());
    answer_on(rt, alloc, &batch, &mut pool, out, gate)
}

/// Answers the points of a file from the points of another and their index.
pub(crate) fn query<R: Threads + Sync, F: Shelf, O: Out, G: Gate + Sync>(
    rt: &R,
    alloc: Global,
    request: &Request<'_>,
    shelf: &mut F,
    out: &mut O,
    gate: &G,
) -> Result<(), Fault>
    requires { IsInRange verbs.Query request.now.settings }
    ensures { Ends (querying request.now.names.first.now request.now.names.second.now request.now.names.third.now request.now.settings) (F.shown shelf.old) (F.shown shelf.new) (O.got out.old) (O.got out.new) (fault_in result) }
{
    let inputs = read_inputs(alloc, request, shelf)?;
    answered(rt, alloc, &inputs, &request.settings, out, gate)
}
