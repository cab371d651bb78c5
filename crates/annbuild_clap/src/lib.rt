//! A request, read once more by `clap`.
//!
//! `parse_by_clap` hands clap the request's words in one fixed shape, and takes file names and settings from its matches.
#![tactic(auto)]

mod canonical;
mod found;
mod owned;
mod program;
mod through_clap;

pub use owned::Parsed;
pub use through_clap::parse_by_clap;
