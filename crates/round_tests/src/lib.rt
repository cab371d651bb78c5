//! Tests of rounds over each pool: the blocks, who runs which task, tasks that wait for each other, and the steps of a
//! stolen round by hand.
//!
//! They stand in a crate above the pools, since a crate with tests is proved twice.
#![tactic(auto)]

#[cfg(test)]
mod begun;
#[cfg(test)]
mod by_hand;
#[cfg(test)]
mod rounds;
#[cfg(test)]
mod squares;
#[cfg(test)]
mod waiting;
