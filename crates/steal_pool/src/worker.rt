//! What a worker does in a stolen round.
ghost use Rattle.std.specs.Prelude.{◌≡◌, ◌<◌, ◌≤◌, ◌*◌, length};
ghost use Rattle.steal_pool.specs.Worker.{Fits, Ready, Grown, HasPass};
ghost use Rattle.steal_pool.specs.Shares.{EachFrom};
ghost use Rattle.steal_table.specs.Steps.{AllBack, HasEntryOf};
ghost use Rattle.steal_pool.specs.Work.{AllServe, scratch_of};

use crate::fork::for_each_from;
use crate::post::Post;
use crate::ranges::TaskRange;
use crate::turns::Search;
use crate::work::Work;
use ann_defs::MAX_WORKERS;
use ann_shelf::Gate;
use crossbeam_deque::{Stealer, Worker};
use std::thread::Threads;
use steal_table::{Board, Claim, Pass};

// Claims a task, and runs it if nobody else has it.
pub(crate) fn try_task<W: Work, G: Gate>(
    board: &Board,
    work: &W,
    scratch: &mut W::Scratch,
    pass: &mut Pass,
    task: u32,
    gate: &G,
)
    requires fits { Fits board.now.size (W.want work.now) (W.wide work.now) }
    requires ready { Ready board.now (W.want work.now) pass.old }
    requires task { task < length (W.want work.now) }
    requires serves { W.serves work.now scratch.old }
    ensures ready { Ready board.now (W.want work.now) pass.new }
    ensures number { pass.new.view.number ≡ pass.old.view.number }
    ensures more { Grown pass.old.view pass.new.view }
    ensures got { AllBack pass.old.view → HasEntryOf pass.new.view task }
    ensures serves { W.serves work.now scratch.new }
{
    if let Claim::Mine = board.claim(pass, task) {
        gate.task(pass.number(), task);
        work.run(scratch, task, pass.block());
        board.finish(pass);
    }
}

// Halves a range until one task is left, and claims this task. The upper halves go to the deque. Where the deque
// refuses one, its tasks are claimed at once.
fn run_range<W: Work, G: Gate>(
    board: &Board,
    work: &W,
    scratch: &mut W::Scratch,
    pass: &mut Pass,
    deque: &mut Worker<TaskRange>,
    range: TaskRange,
    gate: &G,
)
    requires fits { Fits board.now.size (W.want work.now) (W.wide work.now) }
    requires ready { Ready board.now (W.want work.now) pass.old }
    requires tasks { range.to ≤ length (W.want work.now) }
    requires serves { W.serves work.now scratch.old }
    ensures ready { Ready board.now (W.want work.now) pass.new }
    ensures number { pass.new.view.number ≡ pass.old.view.number }
    ensures serves { W.serves work.now scratch.new }
{
    let mut left = range;
    while let Some(upper) = left.split() {
        if let Err(refused) = deque.push(upper) {
            for task in refused.from()..refused.to() {
                try_task(board, work, scratch, pass, task, gate);
            }
        }
    }
    try_task(board, work, scratch, pass, left.from(), gate);
}

// Runs its share, and then the ranges that it finds, in at most 4m + 4 turns for m tasks.
fn run_worker<W: Work, G: Gate>(
    board: &Board,
    work: &W,
    scratch: &mut W::Scratch,
    pass: &mut Pass,
    deque: &mut Worker<TaskRange>,
    worker: u32,
    stealers: &[Stealer<TaskRange>],
    gate: &G,
)
    requires fits { Fits board.now.size (W.want work.now) (W.wide work.now) }
    requires ready { Ready board.now (W.want work.now) pass.old }
    requires worker { (worker < length stealers.now) × (length stealers.now ≤ MAX_WORKERS) }
    requires serves { W.serves work.now scratch.old }
    ensures ready { Ready board.now (W.want work.now) pass.new }
    ensures number { pass.new.view.number ≡ pass.old.view.number }
    ensures serves { W.serves work.now scratch.new }
{
    let tasks = work.tasks();
    let workers = stealers.len() as u32;
    if let Some(share) = TaskRange::share(tasks, workers, worker) {
        run_range(board, work, scratch, pass, deque, share, gate);
    }
    let mut search = Search::new(worker);
    for _turn in 0..4 * u64::from(tasks) + 4 {
        if search.is_over(workers) {
            break;
        }
        if let Some(range) = search.turn(worker, deque, stealers) {
            // A range that ends above the tasks is dropped. None is ever pushed.
            if range.to() <= tasks {
                run_range(board, work, scratch, pass, deque, range, gate);
            }
        }
    }
}

// Runs a worker with the pass and the deque that lie in its post.
fn run_post<W: Work, G: Gate>(
    board: &Board,
    work: &W,
    post: &mut Post<W::Scratch>,
    worker: u32,
    stealers: &[Stealer<TaskRange>],
    gate: &G,
)
    requires fits { Fits board.now.size (W.want work.now) (W.wide work.now) }
    requires ready { HasPass board.now (W.want work.now) worker post.old }
    requires worker { (worker < length stealers.now) × (length stealers.now ≤ MAX_WORKERS) }
    requires serves { W.serves work.now (scratch_of post.old) }
    ensures ready { HasPass board.now (W.want work.now) worker post.new }
    ensures serves { W.serves work.now (scratch_of post.new) }
{
    let Some(pass) = &mut post.pass else {
        unreachable!()
    };
    let Some(deque) = &mut post.deque else {
        unreachable!()
    };
    run_worker(
        board,
        work,
        &mut post.scratch,
        pass,
        deque,
        worker,
        stealers,
        gate,
    );
}

// Runs each worker: the last in this thread, and each other in a thread of its own where one can be started.
pub(crate) fn run_workers<R: Threads + Sync, W: Work, G: Gate + Sync>(
    rt: &R,
    board: &Board,
    work: &W,
    posts: &mut [Post<W::Scratch>],
    stealers: &[Stealer<TaskRange>],
    gate: &G,
)
    requires fits { Fits board.now.size (W.want work.now) (W.wide work.now) }
    requires ready { EachFrom 0 (HasPass board.now (W.want work.now)) posts.old }
    requires workers { (0 < length posts.old) × (length posts.old ≤ MAX_WORKERS) × (length stealers.now ≡ length posts.old) }
    requires serve { AllServe (W.serves work.now) posts.old }
    ensures ready { EachFrom 0 (HasPass board.now (W.want work.now)) posts.new }
    ensures serve { AllServe (W.serves work.now) posts.new }
{
    for_each_from(
        rt,
        &|i: usize, post: &mut Post<W::Scratch>|
            requires { (i < length stealers.now) × (length stealers.now ≤ MAX_WORKERS) × Fits board.now.size (W.want work.now) (W.wide work.now) × HasPass board.now (W.want work.now) i post.now × W.serves work.now (scratch_of post.now) }
            ensures { HasPass board.entry.now (W.want work.entry.now) i post.exit.now × W.serves work.entry.now (scratch_of post.exit.now) }
        { run_post(board, work, post, i as u32, stealers, gate) },
        0,
        posts,
    );
}
