//! What a publisher tells one caller.
ghost use Rattle.std.specs.Prelude.{◌≡◌};

use crate::rule::RuledReader;
use std::marker::Model;
use vamana_build::Plan;

/// That a batch was published. Each note tells one caller.
#[derive(Drop)]
pub struct BatchNote<'p> {
    pub(crate) plan: &'p Plan<'p>,
    pub(crate) batch: u32,
    // A reader that knows of the batch. There is none where `left_right` refused it, nor in a note of the first batch.
    pub(crate) reader: Option<RuledReader<'p>>,
}

impl<'p> Model for BatchNote<'p> {
    ghost use Rattle.std.specs.Prelude.{IfSome};
    ghost use Rattle.left_right.specs.Sides.{view as known_by};
    ghost use Rattle.versions.specs.Course.{course_of};
    ghost use Rattle.versions.specs.Standing.{Desk};
    ghost use Rattle.versions.specs.Suffices.{Suffices};

    ghost Value = { Desk };

    ghost view = { λ n. record { course = course_of n.plan.now; batch = n.batch } };

    ghost invariant = { λ n. IfSome n.reader (λ r. Suffices (course_of n.plan.now) n.batch (known_by r.place)) };
}

impl<'p> BatchNote<'p> {
    /// The number of the batch.
    pub fn batch(&self) -> u32
        ensures { result ≡ self.now.batch }
    {
        self.batch
    }
}
