//! How a command ended, told by a status, and by the line of a fault.
ghost use Rattle.std.specs.Prelude.{◌≡◌, ◌⊎◌, ℕ, List, Some, IfSome, IfNone};
ghost use Rattle.ann_shelf.specs.Faults.{Rose};
ghost use Rattle.annbuild_lines.specs.Codes.{code_of};
ghost use Rattle.command_shapes.specs.Ends.{fault_in};
ghost use Rattle.annbuild_commands.specs.Ending.{TellsOf};

use ann_shelf::{Out, write_all};
use annbuild_lines::{Fault, Status, fault_line};

/// Writes the line of a fault on err, by code that takes no memory. Where err itself fails, the line may be cut.
fn tell<O: Out>(err: &mut O, fault: Fault)
    ensures { IfSome (O.got err.old).written (λ before. (after : List ℕ) × ((O.got err.new).written ≡ Some after)
        × TellsOf (Rose (O.got err.old).faults (O.got err.new).faults ⊎ Rose (O.got err.old).wants (O.got err.new).wants) before after fault) }
{
    let line = fault_line(fault);
    match write_all(err, line.as_slice()) {
        Ok(()) => {}
        Err(_slip) => {}
    }
}

/// The status of what was done or refused. A fault is told on err.
pub(crate) fn settle<O: Out>(err: &mut O, done: Result<(), Fault>) -> Status
    ensures fault { result.fault ≡ fault_in done }
    ensures code { result.code ≡ code_of result.fault }
    ensures silent { IfNone result.fault ((O.got err.new).written ≡ (O.got err.old).written) }
    ensures told { IfSome result.fault (λ fault. IfSome (O.got err.old).written (λ before. (after : List ℕ) × ((O.got err.new).written ≡ Some after)
        × TellsOf (Rose (O.got err.old).faults (O.got err.new).faults ⊎ Rose (O.got err.old).wants (O.got err.new).wants) before after fault)) }
{
    match done {
        Ok(()) => Status::done(),
        Err(fault) => {
            tell(err, fault);
            Status::of(fault)
        }
    }
}
