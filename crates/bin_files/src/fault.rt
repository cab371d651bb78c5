//! What may be wrong with a file of points.
use ann_shelf::{Quantity, Slip};
use std::alloc::AllocError;
use thiserror::Error;

/// A rule of files of points, in the order in which they are tried. Between the dimension and the body stand the limits.
#[derive(Clone, Copy, Debug, PartialEq, Eq)]
pub enum PointsRule {
    /// The file has fewer than the eight bytes of a header.
    ShortHeader,
    /// The header's count is 0.
    ZeroCount,
    /// The header's dimension is 0.
    ZeroDim,
    /// The file ends before its last point.
    ShortBody,
    /// The file goes on after its last point.
    Trailing,
}

/// Why a file of points was not read.
#[derive(Clone, Copy, Debug, PartialEq, Eq, Error)]
pub enum PointsFault {
    /// A read of the file failed.
    #[error("the file of points could not be read")]
    Read,
    /// This is the first rule that the file breaks, and the place in bytes from 0.
    #[error("the file of points is malformed")]
    Malformed {
        place: u64,
        rule: PointsRule,
    },
    /// This is the first quantity that is over its limit, with its value.
    #[error("the file of points is too large")]
    TooLarge {
        name: Quantity,
        value: u64,
        limit: u64,
    },
    /// There was no memory for the points.
    #[error("out of memory")]
    NoMemory,
}

impl From<Slip> for PointsFault {
    ghost use Rattle.std.specs.Prelude.{◌≡◌};
    ghost use Rattle.bin_files.specs.Read.{fault_of};

    ghost from_gives = { λ slip fault. fault ≡ fault_of slip };

    fn from(slip: Slip) -> PointsFault {
        match slip {
            Slip::Failed => PointsFault::Read,
            Slip::NoMemory => PointsFault::NoMemory,
        }
    }
}

impl From<AllocError> for PointsFault {
    ghost use Rattle.std.specs.Prelude.{◌≡◌};
    ghost use Rattle.bin_files.specs.declared.fault.PointsFault.TheVariants.{NoMemory};

    ghost from_gives = { λ _ fault. fault ≡ NoMemory };

    fn from(_error: AllocError) -> PointsFault {
        PointsFault::NoMemory
    }
}
