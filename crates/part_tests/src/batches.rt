//! The batches of small numbers of points.
use ann_defs::MAX_POINTS;
use prefix_batches::{Batches, default_cap};

#[test]
fn ten_points_at_cap_three_come_in_five_batches(rt: HostRuntime) {
    let mut batches = Batches::new(10, 3);
    assert!(rt; batches.total() == 5);
    for bounds in [(0, 1), (1, 2), (2, 4), (4, 7), (7, 10)] {
        assert!(rt; batches.next() == Some(bounds));
    }
    assert!(rt; batches.next() == None);
    assert!(rt; batches.next() == None);
    assert!(rt; batches.total() == 5);
}

#[test]
fn one_point_is_one_batch(rt: HostRuntime) {
    let mut batches = Batches::new(1, MAX_POINTS);
    assert!(rt; batches.next() == Some((0, 1)));
    assert!(rt; batches.next() == None);
    assert!(rt; batches.total() == 1);
}

#[test]
fn at_cap_one_each_point_is_a_batch(rt: HostRuntime) {
    let mut batches = Batches::new(4, 1);
    assert!(rt; batches.total() == 4);
    for bounds in [(0, 1), (1, 2), (2, 3), (3, 4)] {
        assert!(rt; batches.next() == Some(bounds));
    }
    assert!(rt; batches.next() == None);
}

#[test]
fn the_default_cap_is_a_fiftieth(rt: HostRuntime) {
    for (n, cap) in [(1, 1), (50, 1), (51, 2), (1000, 20), (4194304, 83887)] {
        assert!(rt; default_cap(n) == cap, "of {n} points");
    }
}
