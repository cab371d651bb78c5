//! Trees that split a point set by two pivots, down to leaves of near points.
//!
//! `Tree::grow` splits the list of all ids, and each of its parts again until none has more ids than a leaf may have
//! (after pyNNDescent's random projection trees). Seed and number of a tree decide its pivots: trees of one seed differ,
//! and each is the same whatever the number of workers. `Tree::leaf_of` gives the leaf that an id is in.
#![tactic(auto)]

mod depth;
mod leaves;
mod parts;
mod places;
mod sides;
mod splits;
mod splitter;
mod tree;

pub use tree::Tree;
