//! The errors of calls of the outside, and what limits speak of.
ghost use Rattle.std.specs.Prelude.{◌≡◌};

use std::alloc::{AllocError, AllocFailed};

/// There was no memory. Any call that takes memory may fail with it.
#[derive(Clone, Copy, Debug, PartialEq, Eq)]
pub struct NoMemory;

impl From<AllocError> for NoMemory {
    fn from(_error: AllocError) -> NoMemory {
        NoMemory
    }
}

impl<T: Drop> From<AllocFailed<T>> for NoMemory {
    fn from(_error: AllocFailed<T>) -> NoMemory {
        NoMemory
    }
}

/// The error of a call of a shelf or an output.
#[derive(Clone, Copy, Debug, PartialEq, Eq)]
pub enum Slip {
    /// The call failed; the object's count of faults rose, or stands at its last value.
    Failed,
    /// There was no memory.
    NoMemory,
}

impl From<AllocError> for Slip {
    ghost use Rattle.ann_shelf.specs.declared.slip.Slip.TheVariants.{NoMemory};

    ghost from_gives = { λ _ slip. slip ≡ NoMemory };

    fn from(_error: AllocError) -> Slip {
        Slip::NoMemory
    }
}

impl From<NoMemory> for Slip {
    ghost use Rattle.ann_shelf.specs.declared.slip.Slip.TheVariants.{NoMemory};

    ghost from_gives = { λ _ slip. slip ≡ NoMemory };

    fn from(_error: NoMemory) -> Slip {
        Slip::NoMemory
    }
}

/// What a limit speaks of. It stands here since the errors of both readers and of the program name it.
#[derive(Clone, Copy, Debug, PartialEq, Eq)]
pub enum Quantity {
    /// Points or queries.
    Count,
    /// Numbers of a point.
    Dim,
    /// Ids of a row.
    Degree,
    /// Numbers of all points together.
    Cells,
    /// 32-bit words of all rows together, each with one word for its length.
    Words,
    /// Answers of all queries together.
    Answers,
}
