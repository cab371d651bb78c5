//! The squared Euclidean distance.
ghost use Rattle.std.specs.Prelude.{◌≡◌, ◌+◌, ◌*◌, ◌<◌, ◌≤◌, length, drop};
ghost use Rattle.ann_defs.specs.Distance.{dist_of};

use crate::lanes::by_lanes;
use ann_defs::MAX_DIM;

/// The sum, over all places, of the squared difference of the two bytes there.
///
/// It is at most 133,171,200, which 2,048 bytes 0 against 2,048 bytes 255 give. It takes no memory. Chunks of 32 bytes
/// and then one of 16 are taken in lanes, and what is left byte by byte.
pub fn dist(a: &[u8], b: &[u8]) -> u32
    requires alike { length a.now ≡ length b.now }
    requires short { length a.now ≤ MAX_DIM }
    ensures value { result ≡ dist_of a.now b.now }
    ensures bound { result ≤ 65025 * length a.now }
{
    dist_from(a, b, 0)
}

/// The sum over the bytes from `from` on.
pub fn dist_from(a: &[u8], b: &[u8], from: usize) -> u32
    requires alike { length a.now ≡ length b.now }
    requires short { length a.now ≤ MAX_DIM }
    requires from { from ≤ length a.now }
    ensures { result ≡ dist_of (drop from a.now) (drop from b.now) }
{
    let (in_32, at) = by_lanes::<32>(a, b, from);
    let (in_16, rest) = by_lanes::<16>(a, b, at);
    in_32 + in_16 + by_bytes(a, b, rest)
}

// The sum over the bytes from `from` on, one by one: what lanes leave, fewer than 16.
fn by_bytes(a: &[u8], b: &[u8], from: usize) -> u32
    requires alike { length a.now ≡ length b.now }
    requires short { length a.now ≤ MAX_DIM }
    requires from { from ≤ length a.now }
    requires few { length a.now < from + 16 }
    ensures { result ≡ dist_of (drop from a.now) (drop from b.now) }
{
    let mut total = 0;
    for i in from..a.len() {
        let gap = a[i].abs_diff(b[i]) as u32;
        total += gap * gap;
    }
    total
}
