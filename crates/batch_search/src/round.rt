//! One round of queries.
ghost use Rattle.std.specs.Prelude.{◌≡◌, ◌<◌, ◌≤◌, IfOk, length};
ghost use Rattle.std.specs.List.{All};
ghost use Rattle.steal_pool.specs.Work.{AllServe};
ghost use Rattle.batch_search.specs.Answers.{round_of};

use crate::answering::Answering;
use crate::answers::Answers;
use crate::tasks::round_from;
use ann_shelf::{Gate, NoMemory};
use std::alloc::Global;
use std::thread::Threads;
use steal_pool::{Post, Rounds};

/// Answers the queries from `from` on, at most 4,096 of them, each as a task of one round of the pool.
///
/// A round takes memory for its answers, `4 * (2 * longest + 1)` bytes for each query, and nothing else. It fails
/// only with `NoMemory`. Then too the posts still serve, and the round may be run again. The next round is from `from`
/// and the count of the answers on.
pub fn answer_round<R: Threads + Sync, P: Rounds, A: Answering, G: Gate + Sync>(
    rt: &R,
    alloc: Global,
    pool: &mut P,
    batch: &A,
    from: u32,
    posts: &mut [Post<A::Scratch>],
    gate: &G,
) -> Result<Answers, NoMemory>
    requires from { from < length (A.answers batch.now) }
    requires posts { length posts.old ≡ P.count pool.old }
    requires serve { AllServe (A.serves batch.now) posts.old }
    ensures answers { IfOk result (λ a. a ≡ round_of (A.answers batch.now) from) }
    ensures short { IfOk result (λ a. All (λ nears. length nears ≤ A.longest batch.now) a) }
    ensures serve { AllServe (A.serves batch.now) posts.new }
    ensures workers { P.count pool.new ≡ P.count pool.old }
{
    let tasks = round_from(batch, from);
    let blocks = pool.run_round(rt, alloc, &tasks, posts, gate)?;
    Ok(Answers::of(blocks))
}
