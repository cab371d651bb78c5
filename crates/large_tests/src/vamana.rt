//! Vamana: 2,000 made points, over each pool with each number of workers.
use crate::made::{Wanted, assert_answers, assert_index};
use crate::pools::ALL_POOLS;
use std::test::Fail;

const WANTED: Wanted = Wanted {
    settings: "--degree 32 --beam 64 --seed 1",
    line: b"built vamana count 2000 dim 16 degree 32 start 201 layers 1 edges 49161\n",
    index: (204676, 0x5de99a2320a0434c),
    answers: (180524, 0x9a95eb13bd9640cc),
};

#[test]
fn each_pool_builds_the_same_index_of_2000_points(rt: HostRuntime) -> Result<(), Fail> {
    Ok(assert_index(&rt, rt.alloc(), WANTED, &ALL_POOLS)?)
}

#[test]
fn each_pool_answers_5000_queries_alike(rt: HostRuntime) -> Result<(), Fail> {
    Ok(assert_answers(&rt, rt.alloc(), WANTED, &ALL_POOLS)?)
}
