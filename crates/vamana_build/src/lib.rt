//! Builds a Vamana graph in batches of doubling size (ParlayANN's batch insertion over DiskANN's GreedySearch and
//! RobustPrune), by any number of workers: the graph is the same for each.
//!
//! A `Plan` holds what is decided before the first batch, `Vamana::step` puts one batch in and returns the rows that it
//! changed, and `Vamana::into_index` gives the finished index.
#![tactic(auto)]

mod batch;
mod change;
mod factor;
mod merges;
mod new_rows;
mod places;
mod plan;
mod row;
mod settings;
mod settled;
mod step;
mod vamana;

pub use ann_defs::{Alpha, OrderKind, StartKind};
pub use change::BatchChange;
pub use plan::Plan;
pub use settings::VamanaSettings;
pub use vamana::Vamana;
