//! The search of a graph for the points nearest to a query.
//!
//! This is GreedySearch of DiskANN (Algorithm 1), which is also SEARCH-LAYER of HNSW (Algorithm 2). `search` goes
//! through any graph that gives its rows, and leaves the search list and the visited ids in a `Scratch`. A `Scratch`
//! is made once for a point set and serves any number of searches. Each takes no memory and can't fail.
//! `posts_for` makes one for each worker of a pool. `candidates` makes the set that RobustPrune (DiskANN, Algorithm 2)
//! starts from out of the visited ids, and `found_candidates` out of the found ones, as HNSW does.
#![tactic(auto)]

mod candidate_ids;
mod greedy;
mod posts;
mod scratch;
mod walk;

pub use candidate_ids::{candidates, found_candidates};
pub use greedy::search;
pub use posts::posts_for;
pub use scratch::{Scratch, found, room, visited};
