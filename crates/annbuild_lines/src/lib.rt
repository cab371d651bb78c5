//! How a call of the program ends, and the lines that it prints.
//!
//! `Fault` and `Status` say how a call ended, and `fault_line` tells it in one line. `Line` holds one printed line;
//! making one takes no memory.
#![tactic(auto)]

mod answers;
mod batch_line;
mod count_lines;
mod fault;
mod fault_lines;
mod index_lines;
mod line;
mod names;
mod query_line;
mod rules;

pub use batch_line::{Moment, batch_line_bytes, push_batch_line};
pub use count_lines::{answered_line, made_line};
pub use fault::{Fault, Rule, Status, What};
pub use fault_lines::fault_line;
pub use index_lines::{BuiltLine, built_line, checked_line};
pub use line::Line;
pub use query_line::{push_query_line, query_line_bytes};
pub use rules::{GoneRule, LabelRule};
