//! Reverse edges, grouped by their targets, and rows merged with them.
//!
//! Where a point was inserted, each id of its new row is offered the edge back. `Proposals` collects these pairs for a
//! whole batch and puts them in order, so that what a target is offered doesn't depend on who found it first.
//! `merged_row` joins a row with its sources: it adds them where there is room, and prunes all of them by RobustPrune
//! (DiskANN, Algorithm 2) where there is not. This is the second half of DiskANN's insertion (Algorithm 3) as ParlayANN
//! does it for batches.
#![tactic(auto)]

mod batch;
mod block;
mod changes;
mod difference;
mod entry;
mod fresh_rows;
mod ids;
mod merge;
mod merged_rows;
mod merging;
mod pair;
mod proposals;
mod propose;
mod round;

pub use block::{row_of, seal};
pub use changes::ChangedRows;
pub use fresh_rows::FreshRows;
pub use ids::sort_ids;
pub use merge::merged_row;
pub use merging::Merging;
pub use pair::Pair;
pub use proposals::Proposals;
pub use round::changed_rows;
