//! Tests of the files of indexes over their public calls.
//!
//! They stand in a crate above, since a crate with tests is proved twice.
#![tactic(auto)]

#[cfg(test)]
mod damage;
#[cfg(test)]
mod indexes;
#[cfg(test)]
mod layers;
#[cfg(test)]
mod replaced;
#[cfg(test)]
mod rows;
#[cfg(test)]
mod stamps;
