//! Which leaf an id is in.
ghost use Rattle.std.specs.Prelude.{◌≡◌, ◌<◌, ℕ, IfOk, if◌then◌else◌, length, slice_index};
ghost use Rattle.std.specs.List.{All};
ghost use Rattle.ann_defs.specs.Graph.{has};
ghost use Rattle.pivot_trees.specs.Blocks.{lists_of};
ghost use Rattle.pivot_trees.specs.Grown.{HasPlaces};

use ann_shelf::NoMemory;
use std::alloc::Global;

/// The place of each id's leaf: the first that has it.
///
/// The leaves are gone through from the last one down. Memory: a word for each id.
pub(crate) fn place_ids(
    alloc: Global,
    count: u32,
    leaves: &[Vec<u32>],
) -> Result<Vec<usize>, NoMemory>
    requires { All (λ ids. All (λ u. u < count) ids) (lists_of leaves.now) }
    ensures { IfOk result (λ v. HasPlaces count (lists_of leaves.now) v.items) }
{
    let mut places = vec![in alloc; leaves.len(); count as usize]?;
    let mut place = leaves.len();
    while place > 0 {
        place -= 1;
        put_place(leaves[place].as_slice(), place, places.as_mut_slice());
    }
    Ok(places)
}

// Puts the place at each of the ids.
fn put_place(ids: &[u32], place: usize, places: &mut [usize])
    requires { All (λ u. u < length places.old) ids.now }
    ensures count { length places.new ≡ length places.old }
    ensures each { (id : ℕ) → id < length places.old → slice_index places.new id ≡ (if has ids.now id then place else slice_index places.old id) }
{
    for id in ids {
        places[*id as usize] = place;
    }
}
