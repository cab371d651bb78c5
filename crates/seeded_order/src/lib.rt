//! The order in which points are inserted, and what else is drawn from a seed.
//!
//! A word is one of `rand_pcg`'s `Pcg64` (O'Neill, PCG XSL RR 128/64), by its seed, its stream and its number:
//! stream 0 gives the bytes of made points, stream 1 the order of insertion, stream 2 the levels of HNSW, and
//! stream 3 + t the tree t. The medoid, at which DiskANN starts its searches, is found by exact integers.
//! `specs/` holds one module per subject: `Words`, `Order`, `Medoid`, `Levels` and `Generator`.
#![tactic(auto)]

mod centroid;
mod generator;
mod insertion;
mod layering;
mod words;

pub use centroid::medoid;
pub use generator::made_points;
pub use insertion::{file_order, first_to_front, insertion_order_of, order};
pub use layering::{level, levels};
pub use words::word;
