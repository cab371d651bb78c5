//! How a call of the program ends.
ghost use Rattle.std.specs.Prelude.{◌≡◌, Some};
ghost use Rattle.annbuild_lines.specs.Codes.{code_of};

use crate::rules::{GoneRule, LabelRule};
use ann_shelf::{NoMemory, Quantity};
use bin_files::PointsRule;
use command_options::{Role, SettingName};
use graph_files::IndexRule;
use thiserror::Error;

/// A broken rule of a file.
#[derive(Clone, Copy, Debug, PartialEq, Eq)]
pub enum Rule {
    Points(PointsRule),
    Index(IndexRule),
    Gone(GoneRule),
    Labels(LabelRule),
}

/// In what two files differ.
#[derive(Clone, Copy, Debug, PartialEq, Eq)]
pub enum What {
    Count,
    Dim,
    Element,
    Digest,
    Kind,
}

/// Why a request was not done. The status of each is `code_of` it.
#[derive(Clone, Copy, Debug, PartialEq, Eq, Error)]
pub enum Fault {
    #[error("the words name no request")]
    Usage,
    #[error("a setting is out of its range")]
    Setting {
        name: SettingName,
        value: u64,
        least: u64,
        greatest: u64,
    },
    #[error("a file cannot be read")]
    Read {
        file: Role,
    },
    #[error("a file breaks a rule of its format")]
    Malformed {
        file: Role,
        place: u64,
        rule: Rule,
    },
    #[error("two files do not fit together")]
    Unfit {
        file: Role,
        what: What,
        found: u64,
        wanted: u64,
    },
    #[error("a file cannot be written")]
    Write {
        file: Role,
    },
    #[error("out of memory")]
    NoMemory,
    #[error("a quantity is over its limit")]
    TooLarge {
        name: Quantity,
        value: u64,
        limit: u64,
    },
}

impl From<NoMemory> for Fault {
    ghost use Rattle.std.specs.Prelude.{◌≡◌};
    ghost use Rattle.annbuild_lines.specs.declared.fault.Fault.TheVariants.{NoMemory};

    ghost from_gives = { λ _ fault. fault ≡ NoMemory };

    fn from(_error: NoMemory) -> Fault {
        Fault::NoMemory
    }
}

/// How a call ended: the code that the program ends with, and the fault where it isn't 0.
#[derive(Clone, Copy, Debug, PartialEq, Eq)]
pub struct Status {
    pub code: u8,
    pub fault: Option<Fault>,
}

impl Status {
    /// The status of a request that was done.
    pub fn done() -> Status
        ensures { result ≡ record { code = 0; fault = None } }
    {
        Status {
            code: 0,
            fault: None,
        }
    }

    /// The status of a fault.
    pub fn of(fault: Fault) -> Status
        ensures { result ≡ record { code = code_of (Some fault); fault = Some fault } }
    {
        let code = match fault {
            Fault::Usage => 2,
            Fault::Setting { .. } => 3,
            Fault::Read { .. } => 4,
            Fault::Malformed { .. } => 5,
            Fault::Unfit { .. } => 6,
            Fault::Write { .. } => 7,
            Fault::NoMemory => 8,
            Fault::TooLarge { .. } => 9,
        };
        Status {
            code,
            fault: Some(fault),
        }
    }
}
