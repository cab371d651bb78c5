//! The rule of the shared value, and its steps.
//!
//! There are four kinds of step. The publisher *publishes*: the shared value becomes the next version. It *tells*: what it
//! knows is cut off for a reader. A reader *learns*: it takes in what was told. A reader *enters*: it finds a version that
//! is not older than what it knows.
ghost use Rattle.versions.specs.Rule.{Keeps, Sees, newcomer, larger};

use crate::shared::Shared;
use atomic_table::{Join, Split};
use crossbeam_utils::rule::{Outcome, Protocol};
use left_right::reader::{Factory, Reader};
use left_right::writer::Writer;
use std::marker::Model;
use vamana_build::BatchChange;

pub(crate) type RuledWriter<'p> = Writer<Shared<'p>, BatchChange, View, Versions>;

pub(crate) type RuledReader<'p> = Reader<Shared<'p>, View, Versions>;

pub(crate) type RuledFactory<'p> = Factory<Shared<'p>, View, Versions>;

/// What one thread knows. No value of it is made.
pub struct View {
    nothing: (),
}

impl Model for View {
    ghost use Rattle.versions.specs.Known.{Known, nothing_known};

    ghost Value = { Known };

    ghost view = { λ _. nothing_known };
}

pub struct Versions;

impl<'p> Protocol<Shared<'p>, View> for Versions {
    ghost holds = { Keeps };

    ghost first = { newcomer };
}

/// Enter and publish: what is seen then.
pub struct Saw;

impl<'p> Outcome<Shared<'p>, View> for Saw {
    ghost then = { Sees };
}

/// Tell: the writer keeps what it knows, and a reader may have it too.
pub struct Told;

impl Split<View> for Told {
    ghost left = { λ v. v };

    ghost right = { λ v. v };
}

/// Learn: a reader takes in what was told.
pub struct Learnt;

impl Join<View> for Learnt {
    ghost both = { larger };

    ghost spent = { newcomer };
}
