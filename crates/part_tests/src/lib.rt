//! Tests of the parts over their public calls: worked values, and the plain bodies that fast ones are compared with.
//!
//! They stand in one crate above the parts, since a crate with tests is proved twice.
#![tactic(auto)]

#[cfg(test)]
mod asking;
#[cfg(test)]
mod batches;
#[cfg(test)]
mod building;
#[cfg(test)]
mod counts;
#[cfg(test)]
mod distance;
#[cfg(test)]
mod layers;
#[cfg(test)]
mod line;
#[cfg(test)]
mod merging;
#[cfg(test)]
mod nearness;
#[cfg(test)]
mod orders;
#[cfg(test)]
mod pruning;
#[cfg(test)]
mod searching;
#[cfg(test)]
mod settled;
