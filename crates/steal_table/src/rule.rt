//! The rule of a round's table, and what its steps tell.
use crate::view::{Size, View};
use atomic_table::{Join, Play, Split, TableRule};

/// A task's block, which lies in the task's slot. While a pass has it, an empty one lies there.
pub type Block = Vec<u32>;

/// The rule of a round's table, of which `specs/Rule.antt` has each line.
pub struct Claiming;

impl TableRule<Block, View, Size> for Claiming {
    ghost use Rattle.steal_table.specs.Rule.{Rule, caller_first};

    ghost holds = { Rule };

    ghost first = { caller_first };
}

/// A claim: from open to held.
pub struct Claims;

impl Play<Block, View> for Claims {
    ghost use Rattle.steal_table.specs.Steps.{claimed};

    ghost then = { claimed };
}

/// A finish: from held to done, with the block back home.
pub struct Finishes;

impl Play<Block, View> for Finishes {
    ghost use Rattle.steal_table.specs.Steps.{finished};

    ghost then = { finished };
}

/// A load in the sweep.
pub struct Looks;

impl Play<Block, View> for Looks {
    ghost use Rattle.steal_table.specs.Steps.{looked};

    ghost then = { looked };
}

/// A seat for one worker more.
pub struct Seats;

impl Split<View> for Seats {
    ghost use Rattle.steal_table.specs.Rule.{one_more, next_worker};

    ghost left = { one_more };

    ghost right = { next_worker };
}

/// The caller takes over what a worker knows.
pub struct Returns;

impl Join<View> for Returns {
    ghost use Rattle.steal_table.specs.Rule.{taken_over, spent};

    ghost both = { taken_over };

    ghost spent = { spent };
}
