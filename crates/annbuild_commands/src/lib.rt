//! The commands, and the top call that does what the words ask for.
//!
//! `annbuild` reads the words and hands the request to its command. Each command reads its files first, computes
//! everything that it writes to a file, and writes last; `query` prints its lines as they are computed. `run_live` does the
//! one command that may wait, `run_plain` all others. Every command
//! keeps the same promises, by `specs/Promises`, and the contract of the top call, over any shelf, outputs and gate, is the
//! contract of the program.
#![tactic(auto)]

mod batch_lines;
mod beside;
mod build;
mod check;
mod index_told;
mod inputs;
mod live;
mod live_inputs;
mod made;
mod make;
mod plain;
mod query;
mod request;
mod stamps;
mod summed;
mod told;
mod top;
mod trial;

pub use annbuild_lines::{Fault, Rule, Status, What};
pub use annbuild_words::{Role, SettingName};
pub use beside::run_live;
pub use plain::run_plain;
pub use top::annbuild;
