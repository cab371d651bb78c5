//! The definitions that the other crates share, and the small types that they are stated with.
//!
//! `specs/` holds one module per subject: `Distance` and `Nearness` (points, squared distance, the nearest of a
//! set), `Graph` (rows of ids), `GreedySearch` (DiskANN, Algorithm 1), `RobustPrune` (DiskANN, Algorithm 2) and
//! `BatchInsert` (ParlayANN's batches over DiskANN's insertion). The functions of `laws` state, each as its
//! contract, what these definitions amount to.
#![tactic(auto)]

mod alpha;
mod kinds;
mod laws;
mod limits;
mod near;

pub use alpha::Alpha;
pub use kinds::{Element, Kind, OrderKind, StartKind, Way};
pub use laws::{
    graphs_stay_good, least_sees_members, prune_sees_members, prune_takes_least, search_ends,
    search_sees_members,
};
pub use limits::{
    MAX_ANSWERS, MAX_BEAM, MAX_CALLERS, MAX_CELLS, MAX_DEGREE, MAX_DIM, MAX_PAIRS, MAX_POINTS,
    MAX_WORDS, MAX_WORKERS,
};
pub use near::Near;
