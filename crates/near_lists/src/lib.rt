//! Lists of ids with their squared distances, nearest first.
//!
//! A list stands in order at the front of a slice: `offer` puts one more into its place and keeps the nearest, and
//! `offer_unseen` offers those of some ids that were not offered before, which it tells by their marks. `gather` brings
//! ids together, each once. Searches, candidates for a row, and exact answers are made of these.
#![tactic(auto)]

mod ahead;
mod gathered;
mod list;
mod marks;
mod measured;
mod unseen;

pub use ahead::touch;
pub use gathered::gather;
pub use list::offer;
pub use marks::{collect, next_stamp};
pub use measured::near_to;
pub use unseen::{offer_all, offer_unseen};
