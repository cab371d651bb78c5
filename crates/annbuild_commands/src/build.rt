//! `build`: the index of a file of points, from bytes to bytes.
ghost use Rattle.std.specs.Prelude.{◌≡◌, [], ◌∷◌, Some, IfOk, IfErr, IfSome, OnOk};
ghost use Rattle.ann_shelf.specs.Files.{bytes_of};
ghost use Rattle.graph_rows.specs.View.{contents};
ghost use Rattle.graph_rows.specs.WellFormed.{IsWellFormed};
ghost use Rattle.command_options.specs.Settings.{IsInRange};
ghost use Rattle.command_options.specs.declared.verb.Verb.TheVariants as verbs;
ghost use Rattle.command_options.specs.declared.role.Role.TheVariants as roles;
ghost use Rattle.ann_shelf.specs.Written.{Got};
ghost use Rattle.command_shapes.specs.Ends.{Ends, HaveRead, fault_in};
ghost use Rattle.command_shapes.specs.Reading.{points_read};
ghost use Rattle.annbuild_commands.specs.Building.{building, IsIndexOf};

use crate::index_told::line_of_built;
use ann_shelf::{Gate, Out, Shelf};
use annbuild_lines::Fault;
use annbuild_words::{Request, Role};
use command_shapes::{read_points_of, store_and_print};
use graph_rows::Index;
use index_build::index_for;
use std::alloc::Global;
use std::thread::Threads;

/// Reads the points, and builds their index. Nothing is written.
fn prepared<R: Threads + Sync, F: Shelf, G: Gate + Sync>(
    rt: &R,
    alloc: Global,
    request: &Request<'_>,
    shelf: &mut F,
    gate: &G,
) -> Result<Index, Fault>
    requires { IsInRange verbs.Build request.now.settings }
    ensures index { IfOk result (λ i. IfSome (F.shown shelf.old).held (λ files. IsIndexOf (bytes_of files request.now.names.first.now) request.now.settings (contents i))) }
    ensures well_formed { IfOk result (λ i. IsWellFormed (contents i)) }
    ensures read { OnOk result (HaveRead (points_read roles.Base request.now.names.first.now ∷ []) (F.shown shelf.old) (F.shown shelf.new)) }
    ensures failed { IfErr result (λ fault. (had : Got) → Ends (building request.now.names.first.now request.now.names.second.now request.now.settings) (F.shown shelf.old) (F.shown shelf.new) had had (Some fault)) }
{
    let element = request.settings.element;
    let points = read_points_of(alloc, shelf, Role::Base, request.names.first, element)?;
    index_for(rt, alloc, &points, &request.settings, gate)
}

/// Builds the index of a file of points, stores it, and tells of it.
pub(crate) fn build<R: Threads + Sync, F: Shelf, O: Out, G: Gate + Sync>(
    rt: &R,
    alloc: Global,
    request: &Request<'_>,
    shelf: &mut F,
    out: &mut O,
    gate: &G,
) -> Result<(), Fault>
    requires { IsInRange verbs.Build request.now.settings }
    ensures { Ends (building request.now.names.first.now request.now.names.second.now request.now.settings) (F.shown shelf.old) (F.shown shelf.new) (O.got out.old) (O.got out.new) (fault_in result) }
{
    let index = prepared(rt, alloc, request, shelf, gate)?;
    let told = line_of_built(&index);
    store_and_print(
        shelf,
        out,
        Role::Index,
        request.names.second,
        &index,
        told.as_slice(),
    )
}
