//! The index of the pyNNDescent profile: lists from random trees, rounds of NN-Descent over them, and their search graph.
//!
//! `search_graph` prunes both directions of finished `Lists` by RobustPrune, and `build_nnd` grows the trees, fills and improves
//! the lists (`neighbour_lists`), and makes the index of their search graph. Every round runs on any pool with any number of
//! workers, with the same rows.
#![tactic(auto)]

mod build;
mod pruned_graph;
mod settings;
mod sides;

pub use build::build_nnd;
pub use neighbour_lists::{Lists, settled_points_stay};
pub use pruned_graph::search_graph;
pub use settings::NndSettings;
