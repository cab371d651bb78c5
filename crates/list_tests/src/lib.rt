//! Tests of trees, lists and their search graph over their public calls.
//!
//! They stand in one crate above the parts, since a crate with tests is proved twice.
#![tactic(auto)]

#[cfg(test)]
mod active;
#[cfg(test)]
mod line;
#[cfg(test)]
mod plain;
#[cfg(test)]
mod trees;
#[cfg(test)]
mod waiting;
