//! The work that the tests run, and rounds of it.
ghost use Rattle.std.specs.Prelude.{◌≡◌, ◌<◌, ◌≤◌, IfOk, length};

use ann_shelf::{Gate, NoMemory};
use std::alloc::Global;
use std::sync::atomic::{AtomicU64, Ordering};
use std::thread::Threads;
use steal_pool::{Blocks, Report, Round, Rounds, Work, posts_of};

// Task t wants t and t·t, modulo 2^32. Any scratch serves.
#[derive(Drop)]
struct Squares {
    tasks: u32,
    // how many of them make up for a thread
    least: u32,
    // how many tasks were run
    runs: AtomicU64,
}

impl Squares {
    fn of(tasks: u32, least: u32) -> Squares
        ensures { result.tasks ≡ tasks }
    {
        Squares {
            tasks,
            least,
            runs: AtomicU64::new(0),
        }
    }
}

impl Work for Squares {
    type Scratch = u32;

    ghost use Rattle.std.specs.Prelude.{◌*◌, ◌%◌, ◌^◌, [], ◌∷◌, map};
    ghost use Rattle.std.specs.List.{range_with_len};

    ghost want = { λ w. map (λ t. t ∷ (t * t % 2 ^ 32) ∷ []) (range_with_len 0 w.tasks) };

    ghost wide = { λ _. 2 };

    ghost serves = { λ _ _. Unit {0} };

    fn tasks(&self) -> u32 {
        self.tasks
    }

    fn width(&self) -> u32 {
        2
    }

    fn least(&self) -> u32 {
        self.least.max(1)
    }

    fn run(&self, _scratch: &mut u32, task: u32, out: &mut [u32]) {
        self.runs.fetch_add(1, Ordering::SeqCst);
        out.copy_from_slice(&[task, task.wrapping_mul(task)]);
    }
}

// Whether these are the blocks that so many tasks want.
pub(crate) fn are_squares(blocks: &Blocks, tasks: u32) -> bool {
    for task in 0..blocks.count() {
        if blocks.get(task) != [task, task.wrapping_mul(task)].as_slice() {
            return false;
        }
    }
    blocks.count() == tasks
}

// The blocks of a round of so many tasks over this pool, and how many tasks were run.
pub(crate) fn run<R: Threads + Sync, P: Rounds, G: Gate + Sync>(
    rt: &R,
    alloc: Global,
    pool: &mut P,
    tasks: u32,
    gate: &G,
) -> Result<(Blocks, u64), NoMemory>
    requires { (0 < tasks) × (tasks ≤ 64) }
{
    run_by(rt, alloc, pool, tasks, 1, gate)
}

// The same where so many tasks make up for a thread.
pub(crate) fn run_by<R: Threads + Sync, P: Rounds, G: Gate + Sync>(
    rt: &R,
    alloc: Global,
    pool: &mut P,
    tasks: u32,
    least: u32,
    gate: &G,
) -> Result<(Blocks, u64), NoMemory>
    requires { (0 < tasks) × (tasks ≤ 64) }
{
    let work = Squares::of(tasks, least);
    let mut posts = posts_of(alloc, pool.workers(), || Ok(7u32))?;
    let blocks = pool.run_round(rt, alloc, &work, posts.as_mut_slice(), gate)?;
    Ok((blocks, work.runs.load(Ordering::SeqCst)))
}

// The same of a stolen round, which reports who ran which task.
pub(crate) fn steal<R: Threads + Sync, G: Gate + Sync>(
    rt: &R,
    alloc: Global,
    workers: u32,
    tasks: u32,
    gate: &G,
) -> Result<(Blocks, Report, u64), NoMemory>
    requires workers { (0 < workers) × (workers ≤ 64) }
    requires tasks { (0 < tasks) × (tasks ≤ 64) }
    ensures { IfOk result (λ r. (length r.1.owners ≡ tasks) × (r.1.workers ≡ workers)) }
{
    let work = Squares::of(tasks, 1);
    let mut posts = posts_of(alloc, workers, || Ok(7u32))?;
    let round = Round::new(alloc, tasks, 2, workers)?;
    let (blocks, report) = round.run(rt, &work, posts.as_mut_slice(), gate);
    Ok((blocks, report, work.runs.load(Ordering::SeqCst)))
}
