//! The end of a round: what its closed table gives.
ghost use Rattle.std.specs.Prelude.{◌≡◌, ◌+◌, ◌<◌, length};
ghost use Rattle.std.specs.Mem.Slots.{slots_items, slots_len, IsFull};
ghost use Rattle.steal_table.specs.Opened.{HasRoom, AllDone, AreOwners};

use crate::rule::Block;
use atomic_table::Closed;
use std::alloc::Global;

// Takes each block out of a table that is closed, and reads who has done it.
pub(crate) fn empty_out(
    mut closed: Closed<Block, Global>,
    tasks: u32,
    mut blocks: Vec<Block>,
    mut owners: Vec<u32>,
) -> (Vec<Block>, Vec<u32>)
    requires counts { (slots_len closed.slots ≡ tasks) × (slots_len closed.words ≡ tasks + 1) × IsFull closed.words × IsFull closed.slots }
    requires done { AllDone tasks (slots_items closed.words) }
    requires room { HasRoom tasks blocks owners }
    ensures blocks { result.0.items ≡ slots_items closed.slots }
    ensures owners { AreOwners (slots_items closed.words) result.1.items }
    ensures count { length result.1.items ≡ tasks }
{
    for task in 0..tasks {
        let word = closed.word(task as usize + 1);
        let block = closed.take(task as usize);
        blocks.push_reserved(block);
        owners.push_reserved((word / 2 - 1) as u32);
    }
    closed.free();
    (blocks, owners)
}
