//! Points that are read ahead of their distances.
ghost use Rattle.std.specs.Prelude.{◌≡◌, ◌<◌, ◌≤◌, length, take};
ghost use Rattle.std.specs.List.{All};

use bin_files::Points;

// Points of so many bytes in all are likely to be in a cache.
const CACHED: u64 = 1048576;

// A cache has its bytes in lines of so many.
const LINE: usize = 64;

/// Reads a byte of each line of the points with the first `count` ids, where all points are more than a cache holds.
///
/// Points may begin within a line, so the last byte of each is read too: it may lie in a line more. These reads don't wait
/// for each other, as a distance waits for its point. What they add up to is written behind the ids, if there is room, so
/// that they are not left out; the ids stay.
pub fn touch(points: &Points, ids: &mut [u32], count: usize)
    requires count { count ≤ length ids.old }
    requires ids { All (λ u. u < length points.now.vectors) (take count ids.old) }
    ensures ids { take count ids.new ≡ take count ids.old }
    ensures len { length ids.new ≡ length ids.old }
{
    if u64::from(points.count()) * u64::from(points.dim()) <= CACHED || count == ids.len() {
        return;
    }
    let mut sum = 0u8;
    for id in &ids[..count] {
        let point = points.at(*id);
        let mut at = 0;
        while at < point.len() {
            sum ^= point[at];
            at += LINE;
        }
        if let Some(last) = point.last() {
            sum ^= *last;
        }
    }
    ids[count] = u32::from(sum);
}
