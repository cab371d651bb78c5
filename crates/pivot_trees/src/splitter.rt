//! The split of one list.
ghost use Rattle.std.specs.Prelude.{◌≡◌, ◌+◌, ◌^◌, ◌<◌, ◌≤◌, ◌++◌, length, slice_index};
ghost use Rattle.std.specs.List.{All};
ghost use Rattle.pivot_trees.specs.Blocks.{block_of};
ghost use Rattle.pivot_trees.specs.Leaves.{first_place, second_place, parts_of};

use crate::sides::write_sides;
use bin_files::Points;
use seeded_order::word;
use steal_pool::seal_block;

/// The greatest depth whose lists are split by their pivots.
const MAX_DEPTH: u32 = 48;

/// What decides how the lists of one depth of a tree are split.
#[derive(Drop)]
pub(crate) struct Splitter<'a> {
    pub points: &'a Points,
    pub seed: u64,
    pub tree: u32,
    pub depth: u32,
}

impl<'a> Splitter<'a> {
    // The pivots of a list with this number.
    fn pivots(&self, number: u64, ids: &[u32]) -> (u32, u32)
        requires number { number < 2 ^ 62 }
        requires some { 2 ≤ length ids.now }
        ensures first { result.0 ≡ slice_index ids.now (first_place self.now.seed self.now.tree number (length ids.now)) }
        ensures second { result.1 ≡ slice_index ids.now (second_place self.now.seed self.now.tree number (length ids.now)) }
    {
        let stream = 3 + u64::from(self.tree);
        let len = ids.len() as u64;
        let first = word(self.seed, stream, 2 * number) % len;
        let other = word(self.seed, stream, 2 * number + 1) % (len - 1);
        let second = if first <= other { other + 1 } else { other };
        (ids[first as usize], ids[second as usize])
    }

    // Writes both parts of a list, and returns how many ids the left one has.
    fn write_parts(&self, number: u64, ids: &[u32], out: &mut [u32]) -> usize
        requires number { number < 2 ^ 62 }
        requires inside { All (λ u. u < length self.now.points.now.vectors) ids.now }
        requires some { 2 ≤ length ids.now }
        requires out { length out.old ≡ length ids.now }
        ensures out { out.new ≡ (parts_of self.now.points.now.vectors self.now.seed self.now.tree self.now.depth number ids.now).0 ++ (parts_of self.now.points.now.vectors self.now.seed self.now.tree self.now.depth number ids.now).1 }
        ensures left { result ≡ length (parts_of self.now.points.now.vectors self.now.seed self.now.tree self.now.depth number ids.now).0 }
    {
        if self.depth <= MAX_DEPTH {
            let (first, second) = self.pivots(number, ids);
            let left = write_sides(self.points, first, second, ids, out);
            if left > 0 && left < ids.len() {
                return left;
            }
        }
        out.copy_from_slice(ids);
        (ids.len() + 1) / 2
    }

    /// Writes the block of a list with this number: the length of its left part, both parts, and zeros.
    pub fn split(&self, number: u64, ids: &[u32], out: &mut [u32])
        requires number { number < 2 ^ 62 }
        requires inside { All (λ u. u < length self.now.points.now.vectors) ids.now }
        requires some { 2 ≤ length ids.now }
        requires few { length ids.now < 2 ^ 32 }
        requires out { length ids.now + 1 ≤ length out.old }
        ensures { out.new ≡ block_of (length out.old) (parts_of self.now.points.now.vectors self.now.seed self.now.tree self.now.depth number ids.now) }
    {
        let left = self.write_parts(number, ids, &mut out[1..ids.len() + 1]);
        seal_block(out, left, ids.len());
    }
}
