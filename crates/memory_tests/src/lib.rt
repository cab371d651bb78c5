//! Runs of every command in which one allocation may fail.
#![tactic(auto)]

#[cfg(test)]
mod memory;
