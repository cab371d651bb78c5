//! Rounds of tasks, run by one worker or by many.
//!
//! A round is a list of tasks, each with a block of words that it wants. A pool runs the tasks with the scratches
//! of its workers, and gives the blocks in the order of the tasks: the same blocks, whichever pool runs them.
//!
//! `Work` says what a round computes, `Post` is a worker's place with its scratch, `Rounds` is a pool, and `Blocks`
//! is what a round gives. `SerialRounds` runs a round in one loop, `RayonRounds` by one fixed share for each worker,
//! and `StealRounds` by shares whose tasks the workers claim and steal from each other. A `Pool` is any of them.
//!
//! A stolen round is a `Round`, over the table of `steal_table`: `Board`, `Pass` and `Claim` are its steps, and `Report`
//! says who ran which task. `seal_block` ends the writing of a block that begins with a number.
#![tactic(auto)]

mod block;
mod fork;
mod pool;
mod post;
mod ranges;
mod rayon_rounds;
mod round;
mod rounds;
mod serial;
mod shares;
mod steal_rounds;
mod sweep;
mod tasks;
mod turns;
mod work;
mod worker;

pub use ann_defs::Way;
pub use block::seal_block;
pub use pool::Pool;
pub use post::{Post, posts_of};
pub use rayon_rounds::RayonRounds;
pub use round::Round;
pub use rounds::Rounds;
pub use serial::SerialRounds;
pub use steal_rounds::StealRounds;
pub use steal_table::{Blocks, Board, Claim, Pass, Report};
pub use work::{LEAST_SEARCHES, Work};
