//! Where a worker stands.
ghost use Rattle.std.specs.Prelude.{◌≡◌, length, Ok, IfOk};
ghost use Rattle.steal_pool.specs.Work.{scratch_of, AllServe};

use crate::ranges::TaskRange;
use ann_shelf::NoMemory;
use crossbeam_deque::Worker;
use std::alloc::Global;
use steal_table::Pass;

/// One worker's post: its scratch, which it keeps from round to round.
///
/// A caller makes one for each worker of its pool, and lends them to every round.
#[derive(Drop)]
pub struct Post<S> {
    pub(crate) scratch: S,
    // the blocks of its share, while a round of fixed shares runs
    pub(crate) share: Option<Vec<Vec<u32>>>,
    // its pass and its deque, while a stolen round runs
    pub(crate) pass: Option<Pass>,
    pub(crate) deque: Option<Worker<TaskRange>>,
}

impl<S> Post<S> {
    /// A post with this scratch. It serves where the scratch does. Takes no memory.
    pub fn new(scratch: S) -> Post<S>
        ensures { scratch_of result ≡ scratch }
    {
        Post {
            scratch,
            share: None,
            pass: None,
            deque: None,
        }
    }
}

/// A post for each of so many workers, with scratches that `make` makes, one after another.
///
/// Memory: the posts, and what `make` takes. A failure leaves nothing.
pub fn posts_of<S: Drop, F: Fn() -> Result<S, NoMemory>>(
    alloc: Global,
    workers: u32,
    make: F,
) -> Result<Vec<Post<S>>, NoMemory>
    requires { F.IsAlwaysCallable make }
    ensures count { IfOk result (λ v. length v.items ≡ workers) }
    ensures serve { IfOk result (λ v. AllServe (λ s. F.post make (Ok s)) v.items) }
{
    let mut posts = Vec::with_capacity(alloc, workers as usize)?;
    for _ in 0..workers {
        posts.push(Post::new(make()?))?;
    }
    Ok(posts)
}
