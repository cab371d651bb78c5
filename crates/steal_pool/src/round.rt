//! A stolen round: its memory, its run and its opening by hand.
ghost use Rattle.std.specs.Prelude.{◌≡◌, ◌+◌, ◌*◌, ◌<◌, ◌≤◌, length, IfOk};
ghost use Rattle.steal_table.specs.Opened.{AllFresh, caller_of};
ghost use Rattle.steal_pool.specs.Shares.{EachFrom};
ghost use Rattle.steal_pool.specs.Work.{AllServe};
ghost use Rattle.steal_pool.specs.Worker.{Fits, HasPass};

use crate::post::Post;
use crate::ranges::TaskRange;
use crate::sweep::{join_all, sweep};
use crate::work::Work;
use crate::worker::run_workers;
use ann_defs::{MAX_WORDS, MAX_WORKERS};
use ann_shelf::{Gate, NoMemory};
use crossbeam_deque::{Stealer, Worker};
use std::alloc::Global;
use std::marker::Model;
use std::thread::Threads;
use steal_table::{Blocks, Board, Pass, Report};

/// A round that has not begun, with all memory that it needs.
///
/// Its workers keep ranges of tasks in deques and steal them from each other. Whichever ranges come, a task is run by
/// the worker that claims it, and the blocks are the same.
#[derive(Drop)]
pub struct Round {
    board: Board,
    own: Pass,
    passes: Vec<Pass>,
    deques: Vec<Worker<TaskRange>>,
    stealers: Vec<Stealer<TaskRange>>,
}

impl Model for Round {
    ghost use Rattle.std.specs.Prelude.{◌≡◌, ◌<◌, length};
    ghost use Rattle.steal_table.specs.declared.view.Size.{Size};
    ghost use Rattle.steal_table.specs.Opened.{AllFresh, caller_of};

    ghost Value = { Size };

    ghost view = { λ r. r.board.size };

    ghost invariant = { λ r. (r.own ≡ caller_of r.board r.board.size.workers) × AllFresh r.board r.board.size.workers r.passes.items
        × (length r.deques.items ≡ r.board.size.workers) × (length r.stealers.items ≡ r.board.size.workers) × (0 < r.board.size.workers) };
}

impl Round {
    /// A round of tasks with blocks of `width` words, for 1 to `MAX_WORKERS` workers. It takes memory for the words, the
    /// blocks, the deques, the seats and the report, and no call on it needs more. At least one task and one word a block,
    /// and together at most `MAX_WORDS` words.
    pub fn new(alloc: Global, tasks: u32, width: u32, workers: u32) -> Result<Round, NoMemory>
        requires some { (0 < tasks) × (0 < width) }
        requires small { tasks * width ≤ MAX_WORDS }
        requires workers { (0 < workers) × (workers ≤ MAX_WORKERS) }
        ensures { IfOk result (λ r. r ≡ record { tasks = tasks; width = width; workers = workers }) }
    {
        let (board, own, passes) = Board::open(alloc, tasks, width, workers)?;
        let deques = deques(alloc, workers)?;
        let stealers = stealers(alloc, deques.as_slice())?;
        Ok(Round {
            board,
            own,
            passes,
            deques,
            stealers,
        })
    }

    /// The board with every task open, the caller's pass, and the passes of the workers in the order of their numbers.
    pub fn open(self) -> (Board, Pass, Vec<Pass>)
        ensures board { result.0.size ≡ self }
        ensures own { result.1 ≡ caller_of result.0 self.workers }
        ensures passes { AllFresh result.0 self.workers result.2.items }
    {
        let Round {
            board,
            own,
            passes,
            deques: _,
            stealers: _,
        } = self;
        (board, own, passes)
    }

    /// Runs the round: `posts` has a post for each worker. It can't fail.
    ///
    /// Worker `i` of `w` begins with the tasks from `i·m/w` to `(i+1)·m/w`, rounded down, the upper bound excluded. It
    /// halves a range until one task is left, pushes each upper half to its deque (last in, first out), and claims and
    /// runs the task. With an empty deque it tries to steal a range from the other workers in cyclic order, until it
    /// found all of them empty, one after another, or made 4m + 4 turns. A push that is refused makes it run the
    /// range itself. What the workers leave the caller runs in a sweep, with the scratch of the first post.
    ///
    /// `gate.task(worker, task)` is called at the beginning of each task.
    pub fn run<R: Threads + Sync, W: Work, G: Gate + Sync>(
        self,
        rt: &R,
        work: &W,
        posts: &mut [Post<W::Scratch>],
        gate: &G,
    ) -> (Blocks, Report)
        requires fits { Fits self (W.want work.now) (W.wide work.now) }
        requires posts { length posts.old ≡ self.workers }
        requires serve { AllServe (W.serves work.now) posts.old }
        ensures blocks { result.0 ≡ W.want work.now }
        ensures owners { (length result.1.owners ≡ self.tasks) × (result.1.workers ≡ self.workers) }
        ensures serve { AllServe (W.serves work.now) posts.new }
    {
        let Round {
            board,
            mut own,
            passes,
            deques,
            stealers,
        } = self;
        hand_out(&board, work, posts, passes, deques);
        run_workers(rt, &board, work, posts, stealers.as_slice(), gate);
        join_all(&board, work, posts, &mut own);
        sweep(&board, work, &mut posts[0].scratch, &mut own, gate);
        board.close(own)
    }
}

// As many deques as workers. A range of 2^27 tasks is halved 27 times, so 32 places are enough for what a worker pushes.
fn deques(alloc: Global, workers: u32) -> Result<Vec<Worker<TaskRange>>, NoMemory>
    ensures { IfOk result (λ v. length v.items ≡ workers) }
{
    let mut deques = Vec::with_capacity(alloc, workers as usize)?;
    for _ in 0..workers {
        deques.push(Worker::new_lifo(alloc, 32)?)?;
    }
    Ok(deques)
}

// A stealer of each deque, in their order.
fn stealers(
    alloc: Global,
    deques: &[Worker<TaskRange>],
) -> Result<Vec<Stealer<TaskRange>>, NoMemory>
    ensures { IfOk result (λ v. length v.items ≡ length deques.now) }
{
    let mut stealers = Vec::with_capacity(alloc, deques.len())?;
    for deque in deques.iter() {
        stealers.push(deque.stealer()?)?;
    }
    Ok(stealers)
}

// Gives each post the pass and the deque of its worker.
fn hand_out<W: Work>(
    board: &Board,
    work: &W,
    posts: &mut [Post<W::Scratch>],
    mut passes: Vec<Pass>,
    mut deques: Vec<Worker<TaskRange>>,
)
    requires passes { AllFresh board.now (length posts.old) passes.items }
    requires deques { length deques.items ≡ length posts.old }
    requires serve { AllServe (W.serves work.now) posts.old }
    ensures ready { EachFrom 0 (HasPass board.now (W.want work.now)) posts.new }
    ensures serve { AllServe (W.serves work.now) posts.new }
{
    let workers = posts.len();
    for taken in 0..workers {
        let worker = workers - 1 - taken;
        let post = &mut posts[worker];
        post.pass = passes.pop();
        post.deque = deques.pop();
    }
}
