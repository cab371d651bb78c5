//! Sums of squared differences, taken in lanes.
ghost use Rattle.std.specs.Prelude.{◌≡◌, ◌+◌, ◌*◌, ◌<◌, ◌≤◌, length, drop};
ghost use Rattle.std.specs.Simd.Lanes.{zip2, chunk, sum_l};
ghost use Rattle.ann_defs.specs.Distance.{squared_gap, dist_of};

use ann_defs::MAX_DIM;
use std::simd::prelude::*;

/// The sum over all whole chunks of N bytes that there are from `from` on. Returns the sum and the place of the first
/// byte that isn't taken in: fewer than N are left.
///
/// N is a power of two, at most 64.
pub fn by_lanes<const N: usize>(a: &[u8], b: &[u8], from: usize) -> (u32, usize)
    requires lanes { 0 < N }
    requires alike { length a.now ≡ length b.now }
    requires short { length a.now ≤ MAX_DIM }
    requires from { from ≤ length a.now }
    ensures sum { result.0 + dist_of (drop result.1 a.now) (drop result.1 b.now) ≡ dist_of (drop from a.now) (drop from b.now) }
    ensures rest { result.1 ≤ length a.now }
    ensures whole { length a.now < result.1 + N }
{
    if a.len() - from < N {
        return (0, from);
    }
    let mut at = from;
    let mut sums: Simd<u32, N> = Simd::splat(0);
    while a.len() - at >= N {
        sums = sums.strict_add(squares(a, b, at));
        at += N;
    }
    (sums.strict_reduce_sum(), at)
}

/// The sum over the N bytes from `at` on. N is a power of two, at most 64.
pub fn by_chunk<const N: usize>(a: &[u8], b: &[u8], at: usize) -> u32
    requires alike { length a.now ≡ length b.now }
    requires short { length a.now ≤ MAX_DIM }
    requires inside { at + N ≤ length a.now }
    ensures { result + dist_of (drop (at + N) a.now) (drop (at + N) b.now) ≡ dist_of (drop at a.now) (drop at b.now) }
{
    squares::<N>(a, b, at).strict_reduce_sum()
}

// The squared differences of the N bytes from `at` on. A difference of two bytes fits 16 bits with its sign.
fn squares<const N: usize>(a: &[u8], b: &[u8], at: usize) -> Simd<u32, N>
    requires a { at + N ≤ length a.now }
    requires b { at + N ≤ length b.now }
    ensures { result ≡ zip2 squared_gap (chunk at N a.now) (chunk at N b.now) }
{
    let x: Simd<i16, N> = Simd::<u8, N>::from_slice(&a[at..]).cast();
    let y: Simd<i16, N> = Simd::<u8, N>::from_slice(&b[at..]).cast();
    let gap: Simd<i32, N> = (x - y).cast();
    (gap * gap).cast()
}
