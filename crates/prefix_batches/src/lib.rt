//! The bounds of the batches in which the points of an insertion order are inserted together.
//!
//! The batches of ParlayANN (Manohar and others, PPoPP 2024, prefix doubling): the first holds one point, and each
//! later one as many as all before it together, but at most a cap. `Batches` gives their bounds as places in the
//! order, one batch after another, and their number. The functions of `laws` state, each as its contract, that the
//! bounds rise to the number of points and end there.
#![tactic(auto)]

mod batches;
mod laws;

pub use batches::{Batches, cap_for, default_cap};
pub use laws::{bounds_end_at_total, bounds_rise, total_is_within};
