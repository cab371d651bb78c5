//! RobustPrune: which of its candidates become the out-neighbours of a point.
//!
//! DiskANN, Algorithm 2 (Subramanya and others, NeurIPS 2019): take the nearest candidate, remove those that it covers,
//! and go on with the rest until the row is full. With a factor of 1 it is also the neighbour selection heuristic of
//! HNSW, Algorithm 4. `prune` works in the caller's memory: it takes none, can't fail, and its result depends on
//! the set of candidates alone.
#![tactic(auto)]

mod among;
mod nearest;
mod pruning;
mod robust;

pub use among::prune_among;
pub use ann_defs::Alpha;
pub use nearest::NearestPrune;
pub use pruning::Pruning;
pub use robust::{RobustPrune, prune};
