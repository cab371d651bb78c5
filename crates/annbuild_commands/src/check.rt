//! `check`: whether a file holds an index that fits the points of another.
ghost use Rattle.std.specs.Prelude.{◌≡◌, Some, None, IfOk, IfErr, OnOk};
ghost use Rattle.graph_rows.specs.View.{contents};
ghost use Rattle.ann_shelf.specs.Written.{Got};
ghost use Rattle.command_shapes.specs.Ends.{Ends, HaveRead, fault_in};
ghost use Rattle.annbuild_commands.specs.Fitting.{index_unfit};
ghost use Rattle.annbuild_commands.specs.Indexed.{AreIndexed};
ghost use Rattle.annbuild_commands.specs.Checking.{checking};

use crate::index_told::line_of_checked;
use crate::inputs::{Indexed, read_indexed};
use crate::stamps::unfit_index;
use ann_shelf::{Out, Shelf};
use annbuild_lines::Fault;
use annbuild_words::Request;
use command_shapes::print;
use std::alloc::Global;

/// Reads both files, and refuses them where they don't fit together. Nothing is written.
fn read_fitting<F: Shelf>(
    alloc: Global,
    request: &Request<'_>,
    shelf: &mut F,
) -> Result<Indexed, Fault>
    ensures indexed { IfOk result (AreIndexed request.now.names.first.now request.now.names.second.now request.now.settings (F.shown shelf.old).held) }
    ensures fit { IfOk result (λ x. index_unfit x.points (contents x.index) ≡ None) }
    ensures read { OnOk result (HaveRead (checking request.now.names.first.now request.now.names.second.now request.now.settings).reads (F.shown shelf.old) (F.shown shelf.new)) }
    ensures failed { IfErr result (λ fault. (had : Got) → Ends (checking request.now.names.first.now request.now.names.second.now request.now.settings) (F.shown shelf.old) (F.shown shelf.new) had had (Some fault)) }
{
    let both = read_indexed(alloc, request, shelf)?;
    match unfit_index(&both.points, &both.index) {
        Some(fault) => Err(fault),
        None => Ok(both),
    }
}

/// Reads an index and the points that it is of, and tells of it where they fit together.
pub(crate) fn check<F: Shelf, O: Out>(
    alloc: Global,
    request: &Request<'_>,
    shelf: &mut F,
    out: &mut O,
) -> Result<(), Fault>
    ensures { Ends (checking request.now.names.first.now request.now.names.second.now request.now.settings) (F.shown shelf.old) (F.shown shelf.new) (O.got out.old) (O.got out.new) (fault_in result) }
{
    let both = read_fitting(alloc, request, shelf)?;
    let told = line_of_checked(&both.index);
    print(out, told.as_slice())
}
