//! The order of ids by their distances.
use ann_defs::Near;

#[test]
fn nearer_comes_first_and_of_two_as_near_the_smaller_id(rt: HostRuntime) {
    let near = Near { dist: 4, id: 7 };
    assert!(rt; near < Near { dist: 5, id: 0 });
    assert!(rt; near < Near { dist: 4, id: 8 });
    assert!(rt; Near { dist: 4, id: 6 } < near);
    assert!(rt; near == Near { dist: 4, id: 7 });
}
