//! The files of a `query` and of a `check`, read and held against each other.
ghost use Rattle.std.specs.Prelude.{◌≡◌, Some, None, IfOk, IfErr, IfSome, OnOk};
ghost use Rattle.ann_shelf.specs.Files.{bytes_of};
ghost use Rattle.graph_rows.specs.View.{contents};
ghost use Rattle.command_options.specs.declared.role.Role.TheVariants as roles;
ghost use Rattle.ann_shelf.specs.Written.{Got};
ghost use Rattle.command_shapes.specs.Ends.{Ends, HaveRead};
ghost use Rattle.command_shapes.specs.Reading.{AreOf};
ghost use Rattle.annbuild_commands.specs.Fitting.{queries_unfit, unfit_in};
ghost use Rattle.annbuild_commands.specs.Indexed.{AreIndexed, FailedAmong, indexed_reads};
ghost use Rattle.annbuild_commands.specs.Querying.{querying};

use crate::stamps::{differs, unfit_index};
use ann_shelf::Shelf;
use annbuild_lines::{Fault, What};
use annbuild_words::{Request, Role};
use bin_files::Points;
use command_shapes::{read_index_of, read_points_of};
use graph_rows::Index;
use std::alloc::Global;

/// The points and their index.
#[derive(Drop)]
pub(crate) struct Indexed {
    pub points: Points,
    pub index: Index,
}

/// These, and the queries.
#[derive(Drop)]
pub(crate) struct Inputs {
    pub indexed: Indexed,
    pub queries: Points,
}

/// The dimension of queries, where it doesn't fit the points.
pub(crate) fn unfit_queries(points: &Points, queries: &Points) -> Option<Fault>
    ensures { result ≡ queries_unfit points.now.vectors queries.now.vectors }
{
    differs(
        Role::Queries,
        What::Dim,
        u64::from(queries.dim()),
        u64::from(points.dim()),
    )
}

/// The first numbers of the three that don't fit together.
fn unfit(indexed: &Indexed, queries: &Points) -> Option<Fault>
    ensures { result ≡ unfit_in indexed.now.points (contents indexed.now.index) queries.now.vectors }
{
    if let Some(fault) = unfit_index(&indexed.points, &indexed.index) {
        return Some(fault);
    }
    unfit_queries(&indexed.points, queries)
}

/// Reads the points and the index, in their order. Nothing is written.
pub(crate) fn read_indexed<F: Shelf>(
    alloc: Global,
    request: &Request<'_>,
    shelf: &mut F,
) -> Result<Indexed, Fault>
    ensures indexed { IfOk result (AreIndexed request.now.names.first.now request.now.names.second.now request.now.settings (F.shown shelf.old).held) }
    ensures read { OnOk result (HaveRead (indexed_reads request.now.names.first.now request.now.names.second.now) (F.shown shelf.old) (F.shown shelf.new)) }
    ensures failed { IfErr result (FailedAmong (indexed_reads request.now.names.first.now request.now.names.second.now) (F.shown shelf.old) (F.shown shelf.new)) }
{
    let element = request.settings.element;
    let points = read_points_of(alloc, shelf, Role::Base, request.names.first, element)?;
    let index = read_index_of(alloc, shelf, Role::Index, request.names.second)?;
    Ok(Indexed { points, index })
}

/// Reads the three files, in their order, and refuses them where they don't fit together. Nothing is written.
pub(crate) fn read_inputs<F: Shelf>(
    alloc: Global,
    request: &Request<'_>,
    shelf: &mut F,
) -> Result<Inputs, Fault>
    ensures indexed { IfOk result (λ x. AreIndexed request.now.names.first.now request.now.names.second.now request.now.settings (F.shown shelf.old).held x.indexed) }
    ensures queries { IfOk result (λ x. IfSome (F.shown shelf.old).held (λ files. AreOf roles.Queries request.now.settings.element (bytes_of files request.now.names.third.now) x.queries)) }
    ensures fit { IfOk result (λ x. unfit_in x.indexed.points (contents x.indexed.index) x.queries.vectors ≡ None) }
    ensures read { OnOk result (HaveRead (querying request.now.names.first.now request.now.names.second.now request.now.names.third.now request.now.settings).reads (F.shown shelf.old) (F.shown shelf.new)) }
    ensures failed { IfErr result (λ fault. (had : Got) → Ends (querying request.now.names.first.now request.now.names.second.now request.now.names.third.now request.now.settings) (F.shown shelf.old) (F.shown shelf.new) had had (Some fault)) }
{
    let indexed = read_indexed(alloc, request, shelf)?;
    let queries = read_points_of(
        alloc,
        shelf,
        Role::Queries,
        request.names.third,
        request.settings.element,
    )?;
    match unfit(&indexed, &queries) {
        Some(fault) => Err(fault),
        None => Ok(Inputs { indexed, queries }),
    }
}
