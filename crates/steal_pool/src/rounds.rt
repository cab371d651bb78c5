//! Who runs a round.
ghost use Rattle.ann_defs.specs.declared.limits.TheConstants.{MAX_WORDS, MAX_WORKERS};
ghost use Rattle.std.specs.Prelude.{◌≡◌, ℕ, ◌*◌, ◌<◌, ◌≤◌, length, IfOk};
ghost use Rattle.steal_pool.specs.Work.{AllServe};

use crate::post::Post;
use crate::round::Round;
use crate::serial::run_all;
use crate::shares::run_shares;
use crate::work::Work;
use ann_defs::Way;
use ann_shelf::{Gate, NoMemory};
use std::alloc::Global;
use std::thread::Threads;
use steal_table::Blocks;

/// A pool of 1 to `MAX_WORKERS` workers, which runs rounds.
pub trait Rounds {
    // how many workers there are
    ghost count: { Self → ℕ };

    /// How many workers there are, and so how many posts a round needs.
    fn workers(&self) -> u32
        ensures { result ≡ count self.now };

    /// How this pool runs a round that has tasks enough for so many workers. The blocks don't depend on it.
    fn way(&self, shares: u32) -> Way;

    /// How many of the workers, the first ones, run such a round. The blocks don't depend on it.
    fn busy(&self, shares: u32) -> u32
        ensures { (0 < result) × (result ≤ count self.now) };

    ghost few: { (pool : Self) → (0 < count pool) × (count pool ≤ MAX_WORKERS) };

    /// Runs a round: each task of the work, each with the scratch of one of the posts.
    ///
    /// At least one task and one word a block, and together at most `MAX_WORDS` words. It takes memory for the
    /// blocks, all before the first task. `gate.task(worker, task)` is called at the beginning of each task.
    /// It fails with `NoMemory` alone. Then too the posts still serve, and the round may be run again.
    final fn run_round<R: Threads + Sync, W: Work, G: Gate + Sync>(
        &mut self,
        rt: &R,
        alloc: Global,
        work: &W,
        posts: &mut [Post<W::Scratch>],
        gate: &G,
    ) -> Result<Blocks, NoMemory>
        requires posts { length posts.old ≡ count self.old }
        requires serve { AllServe (W.serves work.now) posts.old }
        requires some { (0 < length (W.want work.now)) × (0 < W.wide work.now) }
        requires small { length (W.want work.now) * W.wide work.now ≤ MAX_WORDS }
        ensures blocks { IfOk result (λ b. b ≡ W.want work.now) }
        ensures serve { AllServe (W.serves work.now) posts.new }
        ensures workers { count self.new ≡ count self.old }
    {
        let shares = work.tasks() / work.least();
        let busy = self.busy(shares);
        let (first, _others) = posts.split_at_mut(busy as usize);
        match self.way(shares) {
            Way::Serial => run_all(alloc, work, &mut first[0].scratch, gate),
            Way::Shares => run_shares(rt, alloc, work, first, gate),
            Way::Stealing => run_stolen(rt, alloc, work, first, gate),
        }
    }
}

// Runs a stolen round, with a worker for each post.
fn run_stolen<R: Threads + Sync, W: Work, G: Gate + Sync>(
    rt: &R,
    alloc: Global,
    work: &W,
    posts: &mut [Post<W::Scratch>],
    gate: &G,
) -> Result<Blocks, NoMemory>
    requires workers { (0 < length posts.old) × (length posts.old ≤ MAX_WORKERS) }
    requires serve { AllServe (W.serves work.now) posts.old }
    requires some { (0 < length (W.want work.now)) × (0 < W.wide work.now) }
    requires small { length (W.want work.now) * W.wide work.now ≤ MAX_WORDS }
    ensures blocks { IfOk result (λ b. b ≡ W.want work.now) }
    ensures serve { AllServe (W.serves work.now) posts.new }
{
    let workers = posts.len() as u32;
    let round = Round::new(alloc, work.tasks(), work.width(), workers)?;
    let (blocks, _report) = round.run(rt, work, posts, gate);
    Ok(blocks)
}
