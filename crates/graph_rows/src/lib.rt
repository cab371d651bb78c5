//! Graphs as rows of ids, and the indexes that are made of them.
//!
//! A graph is a finite map from ids to rows, the lists of an id's out-neighbours: `Rows` is what a search asks of one.
//! `FlatGraph` has a row for each id below a count, `Layer` for some ids that ascend, as the upper layers of HNSW have.
//! An `Index` is a `FlatGraph` as layer 0 with the layers above it, the numbers that a file keeps of it, and the id at
//! which searches begin. What makes an index well formed is `IsWellFormed` in `specs/WellFormed.antt`; the bytes of its
//! file are `text_of` in `specs/Index.antt`.
#![tactic(auto)]

mod flat;
mod index;
mod layer;
mod members;
mod rows;
mod stamp;

pub use ann_defs::Kind;
pub use flat::FlatGraph;
pub use index::Index;
pub use layer::{Layer, place_of};
pub use members::Members;
pub use rows::Rows;
pub use stamp::Stamp;
