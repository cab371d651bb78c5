//! A Vamana build with callers beside it: an index is built batch by batch on any pool while callers ask it.
//!
//! `build_beside_callers` shares the graph after the first batch, publishes each further batch before the next begins, and
//! meanwhile lets the callers ask: query j is asked by caller j modulo their number, each caller's in their order. When
//! all have ended, every query is asked once more in the last graph.
#![tactic(auto)]

mod answers;
mod asker;
mod asking;
mod beside;
mod builder;
mod gather;
mod last_graph;
mod rest;
mod row;
mod seats;
mod session;

pub use answers::LiveAnswers;
pub use asking::Asking;
pub use session::{Session, build_beside_callers};
