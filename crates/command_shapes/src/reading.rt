//! Reading the files of a command, with the faults of the program.
ghost use Rattle.std.specs.Prelude.{◌≡◌, [], ◌∷◌, IfOk, IfErr, IfSome, OnOk};
ghost use Rattle.ann_shelf.specs.Files.{bytes_of};
ghost use Rattle.graph_rows.specs.View.{contents};
ghost use Rattle.graph_rows.specs.WellFormed.{IsWellFormed};
ghost use Rattle.command_shapes.specs.Reading.{AreOf, IsOf, points_read, index_read};
ghost use Rattle.command_shapes.specs.Ends.{HaveRead, FailedRead};
ghost use Rattle.bin_files.specs.Rows.{ArePoints};

use crate::faults::{index_fault, points_fault};
use ann_defs::Element;
use ann_shelf::Shelf;
use annbuild_lines::Fault;
use bin_files::{Points, read_points_as};
use command_options::Role;
use graph_files::{Index, read_index};
use std::alloc::Global;

/// Reads the points of a file of this element type.
pub fn read_points_of<F: Shelf>(
    alloc: Global,
    shelf: &mut F,
    role: Role,
    name: &str,
    element: Element,
) -> Result<Points, Fault>
    ensures points { IfOk result (λ p. IfSome (F.shown shelf.old).held (λ files. AreOf role element (bytes_of files name.now) p)) }
    ensures limits { IfOk result (λ p. ArePoints p.vectors) }
    ensures read { OnOk result (HaveRead (points_read role name.now ∷ []) (F.shown shelf.old) (F.shown shelf.new)) }
    ensures failed { IfErr result (FailedRead (points_read role name.now) (F.shown shelf.old) (F.shown shelf.new)) }
{
    match read_points_as(alloc, shelf, name, element) {
        Ok(points) => Ok(points),
        Err(fault) => Err(points_fault(role, fault)),
    }
}

/// Reads the index of a file.
pub fn read_index_of<F: Shelf>(
    alloc: Global,
    shelf: &mut F,
    role: Role,
    name: &str,
) -> Result<Index, Fault>
    ensures index { IfOk result (λ i. IfSome (F.shown shelf.old).held (λ files. IsOf role (bytes_of files name.now) (contents i))) }
    ensures well_formed { IfOk result (λ i. IsWellFormed (contents i)) }
    ensures read { OnOk result (HaveRead (index_read role name.now ∷ []) (F.shown shelf.old) (F.shown shelf.new)) }
    ensures failed { IfErr result (FailedRead (index_read role name.now) (F.shown shelf.old) (F.shown shelf.new)) }
{
    match read_index(alloc, shelf, name) {
        Ok(index) => Ok(index),
        Err(fault) => Err(index_fault(role, fault)),
    }
}
