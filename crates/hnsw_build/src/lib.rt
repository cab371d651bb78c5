//! Builds an HNSW index in batches of doubling size, by any number of workers: the layers are the same for each.
//!
//! An `HnswPlan` holds what is decided before the first batch: the levels of the points, the order of insertion, which
//! begins with a point of greatest level, and the cap of the batches. `Hnsw::step` inserts one batch (HNSW, Algorithm
//! 1), and `Hnsw::into_index` gives the finished index, which `descend` of `layered_search` answers queries from.
#![tactic(auto)]

mod batch;
mod blocks;
mod entry;
mod fresh_batch;
mod hnsw;
mod laws;
mod layer_change;
mod layer_rows;
mod layers;
mod members;
mod merges;
mod new_rows;
mod plan;
mod point_rows;
mod settings;

pub use ann_defs::OrderKind;
pub use hnsw::Hnsw;
pub use laws::layers_stay_good;
pub use plan::HnswPlan;
pub use settings::HnswSettings;
