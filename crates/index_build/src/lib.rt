//! The index that settings ask for, of each kind, built on the pool that they ask for.
//!
//! `index_for` builds it: by `vamana_build`, `hnsw_build` or `nn_descent`, of points that are in memory, if its rows take
//! no more words than may be. What it gives is `index_of` of the points and settings (specs `IndexOf`), in which no number
//! of workers and no pool occurs. The limits of what settings ask for are here too.
#![tactic(auto)]

mod by_kind;
mod hnsw;
mod limits;
mod nnd;
mod stamp;
mod vamana;

pub use by_kind::index_for;
pub use limits::{check_answers, check_cells, check_words, pool_for};
pub use stamp::{element_code, stamp_for};
pub use vamana::{settings_for_vamana, words_for_vamana};
