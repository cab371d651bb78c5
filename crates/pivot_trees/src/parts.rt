//! The parts of split lists: long ones, which are split again, and leaves.
ghost use Rattle.std.specs.Prelude.{◌≡◌, ◌+◌, ◌++◌, ◌∷◌, ◌≤◌, ◌-◌, [], IfOk, length, take, drop, slice_index};
ghost use Rattle.std.specs.List.{filter};
ghost use Rattle.pivot_trees.specs.Blocks.{lists_of};
ghost use Rattle.pivot_trees.specs.Leaves.{is_long, is_short};
ghost use Rattle.pivot_trees.specs.Tasks.{blocks_in, parts_in};

use crate::splits::Splits;
use ann_shelf::NoMemory;
use std::alloc::Global;
use steal_pool::Blocks;

/// Adds a list to the long ones, or to the leaves if it has no more ids than a leaf may have.
pub(crate) fn keep_list(
    leaf: u32,
    list: Vec<u32>,
    long: &mut Vec<Vec<u32>>,
    leaves: &mut Vec<Vec<u32>>,
) -> Result<(), NoMemory>
    ensures long { IfOk result (λ _. lists_of long.new.items ≡ lists_of long.old.items ++ filter (is_long leaf) (list.items ∷ [])) }
    ensures leaves { IfOk result (λ _. lists_of leaves.new.items ≡ lists_of leaves.old.items ++ filter (is_short leaf) (list.items ∷ [])) }
{
    if list.len() > leaf as usize {
        long.push(list)?;
    } else {
        leaves.push(list)?;
    }
    Ok(())
}

/// Adds the parts of lists, each where it belongs. `blocks` are those of a round of the splits.
///
/// Memory: that of the parts.
pub(crate) fn keep_parts(
    alloc: Global,
    splits: &Splits,
    blocks: &Blocks,
    leaf: u32,
    long: &mut Vec<Vec<u32>>,
    leaves: &mut Vec<Vec<u32>>,
) -> Result<(), NoMemory>
    requires { blocks.now ≡ blocks_in splits.now }
    ensures long { IfOk result (λ _. lists_of long.new.items ≡ lists_of long.old.items ++ filter (is_long leaf) (parts_in splits.now)) }
    ensures leaves { IfOk result (λ _. lists_of leaves.new.items ≡ lists_of leaves.old.items ++ filter (is_short leaf) (parts_in splits.now)) }
{
    for i in 0..splits.lists.len() {
        let words = blocks.get(i as u32);
        let left = words[0] as usize;
        let len = splits.lists[i].len();
        let first = part_of(alloc, words, 0, left)?;
        let second = part_of(alloc, words, left, len)?;
        keep_list(leaf, first, long, leaves)?;
        keep_list(leaf, second, long, leaves)?;
    }
    Ok(())
}

// The ids from `from` up to `to` that stand behind the first word of a block, in memory of their own.
fn part_of(alloc: Global, words: &[u32], from: usize, to: usize) -> Result<Vec<u32>, NoMemory>
    requires order { from ≤ to }
    requires within { to + 1 ≤ length words.now }
    ensures { IfOk result (λ v. v.items ≡ take (to - from) (drop (from + 1) words.now)) }
{
    Ok(words[from + 1..to + 1].to_vec(alloc)?)
}
