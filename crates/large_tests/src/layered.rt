//! HNSW: a worked index of one layer, and 2,000 made points in four layers.
use crate::made::{Wanted, assert_answers, assert_index};
use crate::pools::SOME_POOLS;
use crate::worked::{is_answered, is_built};
use std::test::Fail;
use top_calls::FOUR_IN_ONE_LAYER;

const WANTED: Wanted = Wanted {
    settings: "--kind hnsw --degree 16 --beam 64 --seed 1",
    line: b"built hnsw count 2000 dim 16 degree 16 start 1015 layers 4 edges 35744\n",
    index: (152036, 0x091e0059c8a79156),
    answers: (180518, 0x02ee49dec301e8f5),
};

#[test]
fn a_worked_index_of_one_layer_is_built_and_answers(rt: HostRuntime) {
    let words = "build pts ann --kind hnsw --order file --degree 1 --beam 4 --cap 4 --max-level 0";
    let line = b"built hnsw count 4 dim 1 degree 1 start 0 layers 1 edges 5\n".as_slice();
    assert!(rt; is_built(&rt, rt.alloc(), words, line, FOUR_IN_ONE_LAYER));
    assert!(rt; is_answered(&rt, rt.alloc(), FOUR_IN_ONE_LAYER));
}

#[test]
fn each_pool_builds_the_same_layers_of_2000_points(rt: HostRuntime) -> Result<(), Fail> {
    Ok(assert_index(&rt, rt.alloc(), WANTED, &SOME_POOLS)?)
}

#[test]
fn each_pool_answers_5000_queries_in_layers_alike(rt: HostRuntime) -> Result<(), Fail> {
    Ok(assert_answers(&rt, rt.alloc(), WANTED, &SOME_POOLS)?)
}
