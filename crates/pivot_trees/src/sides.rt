//! The sides of two pivots.
ghost use Rattle.std.specs.Prelude.{◌≡◌, ◌<◌, ◌++◌, length, nat_le};
ghost use Rattle.std.specs.List.{All};
ghost use Rattle.ann_defs.specs.Distance.{dim_of, dist_of, point};
ghost use Rattle.pivot_trees.specs.Leaves.{sides_by};

use bin_files::Points;
use lane_distance::dist;

// Whether an id is at least as near to the first of two pivots as to the second.
fn goes_left(points: &Points, first: &[u8], second: &[u8], id: u32) -> bool
    requires id { id < length points.now.vectors }
    requires first { length first.now ≡ dim_of points.now.vectors }
    requires second { length second.now ≡ dim_of points.now.vectors }
    ensures { result ≡ nat_le (dist_of (point points.now.vectors id) first.now) (dist_of (point points.now.vectors id) second.now) }
{
    let point = points.at(id);
    dist(point, first) <= dist(point, second)
}

/// Writes the ids on the first pivot's side, and then the others, each in their order. Returns how many the first are.
///
/// Two distances for each id. An id is written at both ends of what is free, and then the end that it belongs to moves:
/// so the others come in backwards, and are turned around at last.
pub(crate) fn write_sides(
    points: &Points,
    first: u32,
    second: u32,
    ids: &[u32],
    out: &mut [u32],
) -> usize
    requires first { first < length points.now.vectors }
    requires second { second < length points.now.vectors }
    requires inside { All (λ u. u < length points.now.vectors) ids.now }
    requires out { length out.old ≡ length ids.now }
    ensures out { out.new ≡ (sides_by points.now.vectors first second ids.now).0 ++ (sides_by points.now.vectors first second ids.now).1 }
    ensures left { result ≡ length (sides_by points.now.vectors first second ids.now).0 }
{
    let one = points.at(first);
    let other = points.at(second);
    let mut left = 0;
    let mut right = ids.len();
    for id in ids {
        out[left] = *id;
        out[right - 1] = *id;
        if goes_left(points, one, other, *id) {
            left += 1;
        } else {
            right -= 1;
        }
    }
    out[left..].reverse();
    left
}
