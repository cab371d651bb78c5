//! The squared Euclidean distance of two points.
//!
//! A point is a slice of bytes, and two points that are compared have as many bytes each, at most 2,048. `dist` is the
//! one distance of the whole library: every nearness, search and prune is by it, squared and exact, with no rounding
//! and no root. `dist_within` takes it as far as a comparison with a bound asks for it. `Near` pairs a point's id with its
//! distance.
#![tactic(auto)]

mod lanes;
mod squared;
mod within;

pub use ann_defs::Near;
pub use squared::dist;
pub use within::dist_within;
