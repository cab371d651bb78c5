//! One worker, one loop.
ghost use Rattle.std.specs.Prelude.{◌≡◌, IfOk, ◌<◌};
ghost use Rattle.std.proofs.Common.{arith};

use crate::rounds::Rounds;
use crate::tasks::run_tasks;
use crate::work::Work;
use ann_defs::Way;
use ann_shelf::{Gate, NoMemory};
use std::alloc::Global;
use steal_table::{Blocks, blank_blocks};

/// One worker, which runs the tasks in their order in the caller's thread.
#[derive(Drop)]
pub struct SerialRounds;

impl SerialRounds {
    /// The pool of one worker. Takes no memory.
    pub fn new() -> SerialRounds {
        SerialRounds
    }
}

impl Rounds for SerialRounds {
    ghost count = { λ _. 1 };

    fn workers(&self) -> u32 {
        1
    }

    fn way(&self, _shares: u32) -> Way {
        Way::Serial
    }

    fn busy(&self, _shares: u32) -> u32 {
        1
    }

    ghost few = { λ _. Prim.omega arith };
}

// Runs all tasks in their order.
pub(crate) fn run_all<W: Work, G: Gate + Sync>(
    alloc: Global,
    work: &W,
    scratch: &mut W::Scratch,
    gate: &G,
) -> Result<Blocks, NoMemory>
    requires { W.serves work.now scratch.old }
    ensures blocks { IfOk result (λ b. b ≡ W.want work.now) }
    ensures serves { W.serves work.now scratch.new }
{
    let mut blocks = blank_blocks(alloc, work.tasks(), work.width() as usize)?;
    run_tasks(work, scratch, 0, 0, blocks.as_mut_slice(), gate);
    Ok(Blocks::of(blocks))
}
