//! What the caller does once the workers have returned.
ghost use Rattle.std.specs.Prelude.{◌≡◌, ◌<◌, ℕ, length};
ghost use Rattle.steal_table.specs.Opened.{caller_of};
ghost use Rattle.steal_pool.specs.Worker.{Fits, Ready, HasPass};
ghost use Rattle.steal_pool.specs.Shares.{EachFrom};
ghost use Rattle.steal_table.specs.Steps.{AllBack, HasEntryOf};
ghost use Rattle.steal_pool.specs.Work.{AllServe};

use crate::post::Post;
use crate::work::Work;
use crate::worker::try_task;
use ann_shelf::Gate;
use steal_table::{Board, Pass};

// Takes each pass out of its post and joins it. The deques go, with what is left in them.
pub(crate) fn join_all<W: Work>(
    board: &Board,
    work: &W,
    posts: &mut [Post<W::Scratch>],
    own: &mut Pass,
)
    requires own { own.old ≡ caller_of board.now board.now.size.workers }
    requires posts { length posts.old ≡ board.now.size.workers }
    requires ready { EachFrom 0 (HasPass board.now (W.want work.now)) posts.old }
    requires serve { AllServe (W.serves work.now) posts.old }
    ensures ready { Ready board.now (W.want work.now) own.new }
    ensures back { AllBack own.new.view }
    ensures serve { AllServe (W.serves work.now) posts.new }
{
    for worker in 0..posts.len() {
        let post = &mut posts[worker];
        let Some(pass) = post.pass.take() else {
            unreachable!()
        };
        post.deque = None;
        board.join(own, pass);
    }
}

// Runs what the workers left: loads the word of each task, and runs the task if it is left.
pub(crate) fn sweep<W: Work, G: Gate>(
    board: &Board,
    work: &W,
    scratch: &mut W::Scratch,
    own: &mut Pass,
    gate: &G,
)
    requires fits { Fits board.now.size (W.want work.now) (W.wide work.now) }
    requires ready { Ready board.now (W.want work.now) own.old }
    requires back { AllBack own.old.view }
    requires serves { W.serves work.now scratch.old }
    ensures ready { Ready board.now (W.want work.now) own.new }
    ensures all { (t : ℕ) → t < length (W.want work.now) → HasEntryOf own.new.view t }
    ensures serves { W.serves work.now scratch.new }
{
    for task in 0..work.tasks() {
        if let Some(_) = board.look(own, task) {
            continue;
        }
        try_task(board, work, scratch, own, task, gate);
    }
}
