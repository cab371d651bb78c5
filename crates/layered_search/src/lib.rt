//! The descent through the layers of an index, as K-NN-SEARCH of HNSW (Algorithm 5) makes it.
//!
//! `descend` searches an index of any kind for a query: the layers above the first with beam 1, one after another from
//! the top, and layer 0 with the query's beam. For an index with one layer this is the search from its start. `enter`
//! is the walk through the upper layers alone, for a builder.
#![tactic(auto)]

mod descent;
mod entering;
mod laws;

pub use descent::descend;
pub use entering::enter;
pub use laws::one_layer_is_searched;
