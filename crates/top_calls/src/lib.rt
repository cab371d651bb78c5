//! One call of the program over files in memory, for tests: `call` and `call_at` make it, an `Outcome` is what stands then,
//! the worked files are what they are made over, and `RUNS` has one run of every command and kind of index.
#![tactic(auto)]

mod calls;
mod files;
mod runs;
mod told;

pub use calls::{Failing, NONE, Outcome, call, call_at, words_in};
pub use files::{
    FOUR, FOUR_BY_FOUR, FOUR_BY_ONE, FOUR_IN_LISTS, FOUR_IN_ONE_LAYER, FOUR_IN_TWO_LAYERS,
    FOUR_LINE, FOUR_STAMPED, FOUR_WIDE,
};
pub use runs::{ASKED, RUNS, Run};
pub use told::{holds, tells};
