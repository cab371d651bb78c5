//! Tests of published graphs, and of callers that ask in them, over their public calls.
//!
//! They stand in a crate above `versions`, since a crate with tests is proved twice.
#![tactic(auto)]

#[cfg(test)]
mod answers;
#[cfg(test)]
mod beside;
#[cfg(test)]
mod line;
#[cfg(test)]
mod seat;
#[cfg(test)]
mod stepping;
#[cfg(test)]
mod worked;
