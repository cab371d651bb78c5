//! The shared table of a stolen round, and the steps by which its workers claim and finish tasks.
//!
//! A `Board` has a word and a block for each task, and a `Pass` is one number's right to its calls: `claim`, `finish`,
//! `look` and `join`, each one atomic step, in any order from any threads. `close` ends the round with its `Blocks` and
//! a `Report` of who ran which task.
//!
//! `rule` names the rule that every step keeps, and `view` what a pass knows. The functions of `laws` state, each as its
//! contract, which states a round goes through.
#![tactic(auto)]

mod blocks;
mod board;
mod close;
mod laws;
mod opening;
mod report;
mod rule;
mod view;

pub use blocks::{Blocks, blank_blocks};
pub use board::{Board, Claim, Pass};
pub use laws::rounds_go_by_events;
pub use report::Report;
