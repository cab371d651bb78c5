//! `make`: a file of points that a number gives.
ghost use Rattle.command_options.specs.Settings.{IsInRange};
ghost use Rattle.command_options.specs.declared.verb.Verb.TheVariants as verbs;
ghost use Rattle.command_shapes.specs.Ends.{Ends, fault_in};
ghost use Rattle.annbuild_commands.specs.Making.{making};

use crate::made::points_for;
use ann_shelf::{Out, Shelf};
use annbuild_lines::{Fault, made_line};
use annbuild_words::{Request, Role};
use command_shapes::store_and_print;
use std::alloc::Global;

/// Makes points, stores them, and tells of it.
pub(crate) fn make<F: Shelf, O: Out>(
    alloc: Global,
    request: &Request<'_>,
    shelf: &mut F,
    out: &mut O,
) -> Result<(), Fault>
    requires { IsInRange verbs.Make request.now.settings }
    ensures { Ends (making request.now.names.first.now request.now.settings) (F.shown shelf.old) (F.shown shelf.new) (O.got out.old) (O.got out.new) (fault_in result) }
{
    let points = points_for(alloc, &request.settings)?;
    let told = made_line(request.settings.count, request.settings.dim);
    store_and_print(
        shelf,
        out,
        Role::Base,
        request.names.first,
        &points,
        told.as_slice(),
    )
}
