//! The faults of the parts, as faults of the program.
ghost use Rattle.std.specs.Prelude.{◌≡◌};
ghost use Rattle.command_shapes.specs.Faults.{points_fault_of, index_fault_of, write_fault_of};

use ann_shelf::Slip;
use annbuild_lines::{Fault, Rule};
use bin_files::PointsFault;
use command_options::Role;
use graph_files::IndexFault;

/// A fault of a file of points.
pub(crate) fn points_fault(file: Role, fault: PointsFault) -> Fault
    ensures { result ≡ points_fault_of file fault }
{
    match fault {
        PointsFault::Read => Fault::Read { file },
        PointsFault::Malformed { place, rule } => Fault::Malformed {
            file,
            place,
            rule: Rule::Points(rule),
        },
        PointsFault::TooLarge { name, value, limit } => Fault::TooLarge { name, value, limit },
        PointsFault::NoMemory => Fault::NoMemory,
    }
}

/// A fault of a file of an index.
pub(crate) fn index_fault(file: Role, fault: IndexFault) -> Fault
    ensures { result ≡ index_fault_of file fault }
{
    match fault {
        IndexFault::Read => Fault::Read { file },
        IndexFault::Malformed { place, rule } => Fault::Malformed {
            file,
            place,
            rule: Rule::Index(rule),
        },
        IndexFault::TooLarge { name, value, limit } => Fault::TooLarge { name, value, limit },
        IndexFault::NoMemory => Fault::NoMemory,
    }
}

/// A fault of writing a file or the output.
pub(crate) fn write_fault(file: Role, slip: Slip) -> Fault
    ensures { result ≡ write_fault_of file slip }
{
    match slip {
        Slip::Failed => Fault::Write { file },
        Slip::NoMemory => Fault::NoMemory,
    }
}
