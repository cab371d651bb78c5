//! Printing one piece or two.
ghost use Rattle.std.specs.Prelude.{◌≡◌, [], ◌∷◌, IsErrOf};
ghost use Rattle.ann_shelf.specs.Faults.{Rose};
ghost use Rattle.command_shapes.specs.Ends.{fault_in};
ghost use Rattle.command_shapes.specs.Writing.{Printed};

use crate::faults::write_fault;
use ann_shelf::{Out, write_all};
use annbuild_lines::Fault;
use command_options::Role;

/// Prints a piece, and takes no memory of its own.
pub fn print<O: Out>(out: &mut O, piece: &[u8]) -> Result<(), Fault>
    ensures printed { Printed (piece.now ∷ []) (O.got out.old) (O.got out.new) (fault_in result) }
    ensures want { IsErrOf result Fault.NoMemory → Rose (O.got out.old).wants (O.got out.new).wants }
{
    match write_all(out, piece) {
        Ok(()) => Ok(()),
        Err(slip) => Err(write_fault(Role::Output, slip)),
    }
}

/// Prints two pieces, one after the other, and takes no memory of its own.
pub fn print_both<O: Out>(out: &mut O, first: &[u8], second: &[u8]) -> Result<(), Fault>
    ensures { Printed (first.now ∷ second.now ∷ []) (O.got out.old) (O.got out.new) (fault_in result) }
{
    print(out, first)?;
    print(out, second)
}
