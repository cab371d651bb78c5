//! Storing a file, and printing what tells of it.
ghost use Rattle.std.specs.Prelude.{◌≡◌, Bool, List, ℕ, Some, [], ◌∷◌, IfErr, IfSome, OnOk, OnErr, IsErrOf};
ghost use Rattle.ann_shelf.specs.Files.{with_file};
ghost use Rattle.ann_shelf.specs.Shown.{OnlyWrites};
ghost use Rattle.ann_shelf.specs.Written.{Got};
ghost use Rattle.bin_files.specs.Points.{text as points_text};
ghost use Rattle.graph_rows.specs.Index.{text_of};
ghost use Rattle.graph_rows.specs.View.{contents};
ghost use Rattle.graph_rows.specs.WellFormed.{IsWellFormed};
ghost use Rattle.command_shapes.specs.Ends.{Ends, fault_in};
ghost use Rattle.command_shapes.specs.Writing.{writing, writing_runs, stored_as, IsFile};

use crate::faults::write_fault;
use crate::printing::print;
use ann_shelf::{Out, Shelf, Slip};
use annbuild_lines::Fault;
use bin_files::{Points, write_points};
use command_options::Role;
use graph_files::{Index, write_index};

/// What a file can hold.
pub trait Storable {
    /// Whether it can be stored.
    ghost fits: { Self → Type 0 };

    /// The bytes of its file.
    ghost text: { Self → List ℕ };

    /// Writes it to a file, and takes no memory of its own.
    fn write_to<F: Shelf>(&self, shelf: &mut F, name: &str) -> Result<(), Slip>
        requires { fits self.now }
        ensures ok { OnOk result (IfSome (F.shown shelf.old).held (λ files. (F.shown shelf.new).held ≡ Some (with_file files name.now (text self.now)))) }
        ensures err { OnErr result ((F.shown shelf.new).held ≡ (F.shown shelf.old).held) }
        ensures only_writes { OnlyWrites (F.shown shelf.old) (F.shown shelf.new) name.now (IsErrOf result Slip.Failed) };
}

impl Storable for Index {
    ghost fits = { λ i. IsWellFormed (contents i) };

    ghost text = { λ i. text_of (contents i) };

    fn write_to<F: Shelf>(&self, shelf: &mut F, name: &str) -> Result<(), Slip> {
        write_index(shelf, name, self)
    }
}

impl Storable for Points {
    ghost fits = { λ p. Unit {0} };

    ghost text = { λ p. points_text p };

    fn write_to<F: Shelf>(&self, shelf: &mut F, name: &str) -> Result<(), Slip> {
        write_points(shelf, name, self)
    }
}

/// Stores a file with this role. Where that fails the command ends, whatever it would have printed.
pub fn store<F: Shelf, S: Storable>(
    shelf: &mut F,
    role: Role,
    name: &str,
    what: &S,
) -> Result<(), Fault>
    requires file { IsFile role }
    requires fits { S.fits what.now }
    ensures stored { OnOk result (IfSome (F.shown shelf.old).held (λ files. (F.shown shelf.new).held ≡ Some (with_file files name.now (S.text what.now)))) }
    ensures failed { IfErr result (λ fault. (had : Got) (lawful : List ℕ → Bool) (pieces : List ℕ → List (List ℕ)) →
        Ends (writing_runs (Some (stored_as role name.now (S.text what.now))) lawful pieces) (F.shown shelf.old) (F.shown shelf.new) had had (Some fault)) }
{
    match what.write_to(shelf, name) {
        Ok(()) => Ok(()),
        Err(slip) => Err(write_fault(role, slip)),
    }
}

/// Stores a file with this role, and then prints a line.
pub fn store_and_print<F: Shelf, O: Out, S: Storable>(
    shelf: &mut F,
    out: &mut O,
    role: Role,
    name: &str,
    what: &S,
    line: &[u8],
) -> Result<(), Fault>
    requires file { IsFile role }
    requires fits { S.fits what.now }
    ensures { Ends (writing (Some (stored_as role name.now (S.text what.now))) (line.now ∷ []))
        (F.shown shelf.old) (F.shown shelf.new)
        (O.got out.old) (O.got out.new) (fault_in result) }
{
    store(shelf, role, name, what)?;
    print(out, line)
}
