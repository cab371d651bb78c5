//! The squared Euclidean distance, as far as a comparison asks for it.
ghost use Rattle.std.specs.Prelude.{◌≡◌, ◌+◌, ◌*◌, ◌<◌, ◌≤◌, length, drop};
ghost use Rattle.ann_defs.specs.Distance.{dist_of};

use crate::lanes::by_chunk;
use crate::squared::dist_from;
use ann_defs::MAX_DIM;

// The sum is compared with the bound after each so many bytes.
const PIECE: usize = 64;

/// The squared distance where it is at most `most`, else some number between `most` and the squared distance.
///
/// It takes no memory. The sum is looked at after each 64 bytes, and what is left of the points isn't read once it is
/// more than `most`. Points of fewer bytes cost what `dist` costs.
pub fn dist_within(a: &[u8], b: &[u8], most: u32) -> u32
    requires alike { length a.now ≡ length b.now }
    requires short { length a.now ≤ MAX_DIM }
    ensures exact { dist_of a.now b.now ≤ most → result ≡ dist_of a.now b.now }
    ensures more { most < dist_of a.now b.now → most < result }
    ensures below { result ≤ dist_of a.now b.now }
    ensures bound { result ≤ 65025 * length a.now }
{
    if a.len() < PIECE {
        return dist_from(a, b, 0);
    }
    let mut total = 0;
    let mut at = 0;
    while a.len() - at >= PIECE {
        total += by_chunk::<PIECE>(a, b, at);
        at += PIECE;
        if total > most {
            return total;
        }
    }
    total + dist_from(a, b, at)
}
