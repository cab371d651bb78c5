//! The lanes beside the plain loop, and values from elsewhere.
ghost use Rattle.std.specs.Prelude.{◌≡◌, ◌≤◌, length};
ghost use Rattle.ann_defs.specs.Distance.{dist_of};

use ann_defs::MAX_DIM;
use lane_distance::{dist, dist_within};

// The same, byte by byte from the first to the last.
fn plain(a: &[u8], b: &[u8]) -> u32
    requires alike { length a.now ≡ length b.now }
    requires short { length a.now ≤ MAX_DIM }
    ensures { result ≡ dist_of a.now b.now }
{
    let mut total: u32 = 0;
    for (i, x) in a.iter().enumerate() {
        let gap = x.abs_diff(b[i]) as u32;
        total += gap * gap;
    }
    total
}

// Two points of 2048 bytes.
fn two_points() -> ([u8; 2048], [u8; 2048]) {
    let mut a = [0u8; 2048];
    let mut b = [0u8; 2048];
    for i in 0..2048usize {
        a[i] = (i * 37 % 256) as u8;
        b[i] = (i * i * 11 % 256) as u8;
    }
    (a, b)
}

// Whether both give the same for the first `n` bytes of the two points.
fn alike(n: usize) -> bool {
    let (a, b) = two_points();
    n > 2048 || dist(&a[..n], &b[..n]) == plain(&a[..n], &b[..n])
}

#[test]
fn lanes_agree_with_the_plain_loop_at_each_length(rt: HostRuntime) {
    for n in 0..101usize {
        assert!(rt; alike(n));
    }
}

#[test]
fn the_greatest_distance_is_of_2048_bytes(rt: HostRuntime) {
    assert!(rt; dist(&[0; 2048], &[255; 2048]) == 133171200);
    assert!(rt; dist(&[255; 2048], &[0; 2048]) == 133171200);
}

#[test]
fn each_byte_counts_once(rt: HostRuntime) {
    assert!(rt; dist(&[], &[]) == 0);
    assert!(rt; dist(&[0; 1], &[1; 1]) == 1);
    assert!(rt; dist(&[0; 15], &[1; 15]) == 15);
    assert!(rt; dist(&[0; 16], &[1; 16]) == 16);
    assert!(rt; dist(&[0; 17], &[1; 17]) == 17);
    assert!(rt; dist(&[0; 100], &[1; 100]) == 100);
}

#[test]
fn differences_are_squared_in_both_directions(rt: HostRuntime) {
    assert!(rt; dist(&[0, 10], &[255, 7]) == 65034);
    assert!(rt; dist(&[255, 7], &[0, 10]) == 65034);
    assert!(rt; dist(&[3, 200, 255], &[3, 200, 255]) == 0);
}

// Whether the distance of their first `n` bytes is told as far as each of some bounds asks for it.
fn is_told_within(n: usize) -> bool {
    let (a, b) = two_points();
    if n > 2048 {
        return false;
    }
    let whole = dist(&a[..n], &b[..n]);
    let mut told = true;
    for most in [
        whole,
        whole.saturating_add(1),
        whole.saturating_sub(1),
        0,
        u32::MAX,
    ] {
        let part = dist_within(&a[..n], &b[..n], most);
        told = told && (whole > most || part == whole) && (whole <= most || part > most);
    }
    told
}

#[test]
fn a_distance_within_a_bound_is_exact_and_else_more(rt: HostRuntime) {
    for n in [0usize, 1, 15, 16, 31, 32, 63, 64, 65, 100, 128, 2048] {
        assert!(rt; is_told_within(n));
    }
}

#[test]
fn what_is_left_of_a_far_point_is_not_taken(rt: HostRuntime) {
    assert!(rt; dist_within(&[0; 128], &[1; 128], 64) == 128);
    assert!(rt; dist_within(&[0; 128], &[1; 128], 63) == 64);
    assert!(rt; dist_within(&[0; 2048], &[1; 2048], 700) == 704);
}
