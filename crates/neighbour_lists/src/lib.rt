//! Lists of nearest neighbours, from the leaves of random trees, improved in rounds.
//!
//! `Lists` begin empty, take the leaves of random trees (`add_leaves`), and are improved from neighbours of neighbours
//! (`round`: NN-Descent, Algorithm 1, in synchronous rounds). Every round runs on any pool with any number of workers, with the
//! same lists. Crates above read the lists and their `Edges` in reverse, and make rows of their own by a `RowRule` (`put_rows`).
#![tactic(auto)]

mod around;
mod changes;
mod edge;
mod edges;
mod flags;
mod fresh;
mod hood_offers;
mod hoods;
mod laws;
mod leaf_row;
mod leaves;
mod lists;
mod lists_by;
mod nearest;
mod news;
mod next_lists;
mod next_row;
mod others;
mod round;
mod row_tasks;
mod state;

pub use edge::Edge;
pub use edges::Edges;
pub use laws::settled_points_stay;
pub use lists::Lists;
pub use row_tasks::{RowRule, put_rows};
