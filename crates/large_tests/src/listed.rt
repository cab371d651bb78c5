//! Lists: the worked index of four points, and 2,000 made points.
use crate::made::{Wanted, assert_answers, assert_index};
use crate::pools::SOME_POOLS;
use crate::worked::{is_answered, is_built, is_checked};
use std::test::Fail;
use top_calls::FOUR_IN_LISTS;

const WANTED: Wanted = Wanted {
    settings: "--kind nnd --degree 32 --seed 1",
    line: b"built nnd count 2000 dim 16 degree 32 start 201 layers 1 edges 40861\n",
    index: (171476, 0x6aeb0d905ee9644a),
    answers: (180521, 0x9cc2dbc1a16913cf),
};

#[test]
fn the_worked_index_of_lists_is_built_and_answers(rt: HostRuntime) {
    let words =
        "build pts ann --kind nnd --start first --degree 2 --alpha 1/1 --list 2 --trees 1 --leaf 64 --rounds 1";
    let line = b"built nnd count 4 dim 1 degree 2 start 0 layers 1 edges 6\n".as_slice();
    assert!(rt; is_built(&rt, rt.alloc(), words, line, FOUR_IN_LISTS));
    let line = b"ok nnd count 4 dim 1 degree 2 start 0 layers 1 edges 6 longest 2\n".as_slice();
    assert!(rt; is_checked(&rt, rt.alloc(), line, FOUR_IN_LISTS));
    assert!(rt; is_answered(&rt, rt.alloc(), FOUR_IN_LISTS));
}

#[test]
fn each_pool_builds_the_same_lists_of_2000_points(rt: HostRuntime) -> Result<(), Fail> {
    Ok(assert_index(&rt, rt.alloc(), WANTED, &SOME_POOLS)?)
}

#[test]
fn each_pool_answers_5000_queries_of_lists_alike(rt: HostRuntime) -> Result<(), Fail> {
    Ok(assert_answers(&rt, rt.alloc(), WANTED, &SOME_POOLS)?)
}
