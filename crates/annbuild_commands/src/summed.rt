//! The answers of one round, counted and summed up.
ghost use Rattle.std.specs.Prelude.{◌≡◌, ℕ, ◌+◌, ◌*◌, ◌^◌, ◌≤◌, ◌<◌, List, [], length, slice_index_or, IfOk};
ghost use Rattle.std.specs.List.{All, sum_by};
ghost use Rattle.ann_defs.specs.declared.limits.TheConstants.{MAX_BEAM};
ghost use Rattle.steal_pool.specs.Work.{AllServe};
ghost use Rattle.annbuild_commands.specs.Trying.{dist_sum, answer_count, dist_total};

use ann_defs::Near;
use ann_shelf::{Gate, NoMemory};
use batch_search::{Answering, Answers, answer_round};
use std::alloc::Global;
use std::thread::Threads;
use steal_pool::{Post, Rounds};

/// How many answers there are, and the sum of their squared distances.
#[derive(Clone, Copy, Debug)]
pub(crate) struct Sums {
    pub answers: u64,
    pub total: u64,
}

/// The sum of the squared distances of an answer.
fn sum_of(nears: &[Near]) -> u64
    requires { length nears.now ≤ MAX_BEAM }
    ensures sum { result ≡ dist_sum nears.now }
    ensures small { result ≤ 2 ^ 42 }
{
    let mut sum = 0u64;
    for near in nears {
        sum += u64::from(near.dist);
    }
    sum
}

/// Counts and sums up the answers of a round. `nears` has room for the longest.
fn sums_in(answers: &Answers, nears: &mut [Near]) -> Sums
    requires count { length answers.now ≤ 4096 }
    requires room { length nears.old ≤ MAX_BEAM }
    requires short { All (λ a. length a ≤ length nears.old) answers.now }
    ensures answers { result.answers ≡ answer_count answers.now }
    ensures total { result.total ≡ dist_total answers.now }
{
    let mut sums = Sums {
        answers: 0,
        total: 0,
    };
    for j in 0..answers.count() {
        let len = answers.answer(j, nears);
        sums.answers += len as u64;
        sums.total += sum_of(&nears[..len]);
    }
    sums
}

/// Answers queries in one round, and sums up their answers.
///
/// Besides what `answer_round` takes, it takes memory for one answer.
pub(crate) fn sums_of<R: Threads + Sync, P: Rounds, A: Answering, G: Gate + Sync>(
    rt: &R,
    alloc: Global,
    batch: &A,
    pool: &mut P,
    posts: &mut [Post<A::Scratch>],
    gate: &G,
) -> Result<Sums, NoMemory>
    requires some { 0 < length (A.answers batch.now) }
    requires few { length (A.answers batch.now) ≤ 4096 }
    requires posts { length posts.old ≡ P.count pool.old }
    requires serve { AllServe (A.serves batch.now) posts.old }
    ensures answers { IfOk result (λ s. s.answers ≡ answer_count (A.answers batch.now)) }
    ensures total { IfOk result (λ s. s.total ≡ dist_total (A.answers batch.now)) }
{
    let answers = answer_round(rt, alloc, pool, batch, 0, posts, gate)?;
    let longest = batch.longest() as usize;
    let mut nears = vec![in alloc; Near { dist: 0, id: 0 }; longest]?;
    Ok(sums_in(&answers, nears.as_mut_slice()))
}
