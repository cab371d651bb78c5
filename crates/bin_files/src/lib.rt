//! Point sets and their files, in the `u8bin` and `i8bin` formats of the billion-scale search benchmarks: a count and a
//! dimension, each a little-endian `u32`, then the points one after another, a byte for each number, signed in `i8bin`.
//!
//! `Points` is a point set in memory, which keeps the limits. `read_points` accepts exactly the files that are the
//! text of one, and fails with the first broken rule of any other; `write_points` writes that text. Distances and all
//! that is built over points are the affair of other crates.
#![tactic(auto)]

mod elements;
mod fault;
mod laws;
mod points;
mod read;
mod words;
mod write;

pub use fault::{PointsFault, PointsRule};
pub use laws::text_laws;
pub use points::Points;
pub use read::{read_full, read_points, read_points_as};
pub use words::u32_le;
pub use write::write_points;
