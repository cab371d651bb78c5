//! What may be wrong with the file of an index.
use ann_shelf::{Quantity, Slip};
use thiserror::Error;

/// The rule of a well-formed index that a file breaks.
#[derive(Clone, Copy, Debug, PartialEq, Eq)]
pub enum IndexRule {
    /// The file has fewer than 32 bytes.
    ShortHeader,
    /// It does not begin with the text PANN.
    Magic,
    /// The version is not 1 or 2.
    Version,
    /// The kind is not one that is read.
    Kind,
    /// There is no point.
    ZeroCount,
    /// A point has no byte.
    ZeroDim,
    /// The degree is 0, or a row is longer than its bound.
    Degree,
    /// The start is not an id of a point.
    Start,
    /// The kind may not have so many layers.
    Layers,
    /// A further layer has no ids or too many, or one that is not greater than the one before or not in the layer
    /// below, or the start is not among them.
    LayerIds,
    /// An id of a row is not in the row's layer.
    IdRange,
    /// A row holds its own id.
    SelfEdge,
    /// A row holds an id twice.
    DoubleEdge,
    /// The file ends within a word after the header, or before it.
    Short,
    /// Something follows the last layer.
    Trailing,
    /// A field of the stamp has no allowed value.
    Stamp,
}

/// Why the file of an index was not read.
#[derive(Clone, Copy, Debug, PartialEq, Eq, Error)]
pub enum IndexFault {
    /// A read of the file failed.
    #[error("a read failed")]
    Read,
    /// The first rule that the file breaks, and the byte place where it does.
    #[error("a rule is broken")]
    Malformed {
        place: u64,
        rule: IndexRule,
    },
    /// A quantity of a well-formed header or layer that is over its limit.
    #[error("a quantity is over its limit")]
    TooLarge {
        name: Quantity,
        value: u64,
        limit: u64,
    },
    /// There was no memory for the rows.
    #[error("out of memory")]
    NoMemory,
}

impl From<Slip> for IndexFault {
    ghost use Rattle.std.specs.Prelude.{◌≡◌};
    ghost use Rattle.graph_files.specs.Reading.{fault_of};

    ghost from_gives = { λ slip fault. fault ≡ fault_of slip };

    fn from(slip: Slip) -> IndexFault {
        match slip {
            Slip::Failed => IndexFault::Read,
            Slip::NoMemory => IndexFault::NoMemory,
        }
    }
}
