//! Queries of a line of four points.
ghost use Rattle.std.specs.Prelude.{◌≡◌, ◌<◌, ◌≤◌, IfOk, length};
ghost use Rattle.std.specs.List.{All};

use crate::line::{line, line_index, near};
use ann_defs::Near;
use ann_shelf::{FreeGate, NoMemory};
use batch_search::{Answers, QueryBatch, answer_round, posts_for};
use bin_files::Points;
use std::alloc::Global;
use std::thread::Threads;
use steal_pool::{RayonRounds, Rounds, SerialRounds};

// Answers queries from this one on, in one round of this pool.
fn round_of<R: Threads + Sync, P: Rounds>(
    rt: &R,
    alloc: Global,
    pool: &mut P,
    batch: &QueryBatch,
    from: u32,
) -> Result<Answers, NoMemory>
    requires { from < length batch.now.queries.now.vectors }
    ensures { IfOk result (λ a. All (λ nears. length nears ≤ batch.now.k) a) }
{
    let mut posts = posts_for(alloc, batch.points, batch.beam, pool.workers())?;
    answer_round(
        rt,
        alloc,
        pool,
        batch,
        from,
        posts.as_mut_slice(),
        &FreeGate,
    )
}

// Whether there are so many answers, each of at most k, and the first of them are these.
fn are_answers(answers: &Answers, k: u32, count: u32, wanted: &[&[Near]]) -> bool
    requires k { k ≤ 4 }
    requires short { All (λ nears. length nears ≤ k) answers.now }
{
    if answers.count() != count || wanted.len() > count as usize {
        return false;
    }
    for (j, nears) in wanted.iter().enumerate() {
        let mut out = [near(7, 7); 4];
        let len = answers.answer(j as u32, &mut out);
        if &out[..len] != *nears {
            return false;
        }
    }
    true
}

// Whether a round of these queries of the line, from one on, has so many answers, the first of them these.
fn is_answered<R: Threads + Sync, P: Rounds>(
    rt: &R,
    alloc: Global,
    pool: &mut P,
    queries: &[u8],
    from: u32,
    beam: u32,
    k: u32,
    count: u32,
    wanted: &[&[Near]],
) -> Result<bool, NoMemory>
    requires queries { (1 ≤ length queries.now) × (length queries.now ≤ 5000) }
    requires beam { beam ≤ 4 }
    requires k { (1 ≤ k) × (k ≤ beam) }
{
    let queries = Points::from_bytes(1, queries.to_vec(alloc)?);
    if from >= queries.count() || queries.dim() != 1 {
        return Ok(false);
    }
    let points = line(alloc)?;
    let index = line_index(alloc)?;
    let batch = QueryBatch::new(&points, &index, &queries, beam, k);
    let answers = round_of(rt, alloc, pool, &batch, from)?;
    Ok(are_answers(&answers, k, count, wanted))
}

// The two nearest of 12 and of 30.
const NEAREST: [&[Near]; 2] = [
    &[Near { dist: 4, id: 1 }, Near { dist: 64, id: 2 }],
    &[Near { dist: 100, id: 2 }, Near { dist: 400, id: 1 }],
];

#[test]
fn serial_answers_are_the_nearest_along_the_line(rt: HostRuntime) {
    let mut pool = SerialRounds::new();
    assert!(rt;
        is_answered(&rt, rt.alloc(), &mut pool, &[12, 30], 0, 4, 2, 2, &NEAREST) == Ok(true)
    );
}

#[test]
fn rayon_answers_of_three_workers_are_the_nearest_along_the_line(rt: HostRuntime) {
    let mut pool = RayonRounds::new(3);
    assert!(rt;
        is_answered(&rt, rt.alloc(), &mut pool, &[12, 30], 0, 4, 2, 2, &NEAREST) == Ok(true)
    );
}

#[test]
fn an_answer_is_shorter_where_less_is_found(rt: HostRuntime) {
    let mut pool = SerialRounds::new();
    let found = [near(4, 1), near(64, 2), near(144, 0)];
    assert!(rt; is_answered(&rt, rt.alloc(), &mut pool, &[12], 0, 4, 4, 1, &[&found]) == Ok(true));
}

#[test]
fn a_beam_of_one_answers_one(rt: HostRuntime) {
    let mut pool = SerialRounds::new();
    let wanted: [&[Near]; 2] = [&[near(4, 1)], &[near(100, 2)]];
    assert!(rt;
        is_answered(&rt, rt.alloc(), &mut pool, &[12, 30], 0, 1, 1, 2, &wanted) == Ok(true)
    );
}

#[test]
fn a_round_begins_at_the_query_that_is_asked(rt: HostRuntime) {
    let mut pool = RayonRounds::new(3);
    let wanted: [&[Near]; 2] = [&[near(100, 2)], &[near(16, 0)]];
    assert!(rt;
        is_answered(
            &rt,
            rt.alloc(),
            &mut pool,
            &[12, 30, 4],
            1,
            4,
            1,
            2,
            &wanted
        ) == Ok(true)
    );
}

#[test]
fn a_round_has_at_most_4096_queries(rt: HostRuntime) {
    let mut pool = RayonRounds::new(3);
    let queries = [12u8; 4098];
    let wanted: [&[Near]; 2] = [&[near(4, 1)], &[near(4, 1)]];
    assert!(rt;
        is_answered(&rt, rt.alloc(), &mut pool, &queries, 0, 4, 1, 4096, &wanted) == Ok(true)
    );
    assert!(rt;
        is_answered(&rt, rt.alloc(), &mut pool, &queries, 4096, 4, 1, 2, &wanted) == Ok(true)
    );
}
