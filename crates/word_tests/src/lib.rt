//! Tests of words, the option table, clap and printed lines over their public calls: worked values from outside.
//!
//! They stand in one crate above the others, since a crate with tests is proved twice.
#![tactic(auto)]

#[cfg(test)]
mod builds;
#[cfg(test)]
mod by_clap;
#[cfg(test)]
mod commands;
#[cfg(test)]
mod lines;
#[cfg(test)]
mod reading;
#[cfg(test)]
mod settings;
#[cfg(test)]
mod table;
