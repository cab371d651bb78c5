//! The words of a request.
//!
//! `read_words` turns the words of the command line into a request by the rules that stand at it. What a command is made
//! of, the option table among it, stands in `command_options`; what callers take from there is public here too.
#![tactic(auto)]

mod given;
mod item;
mod number;
mod range;
mod request;
mod value;
mod words;

pub use command_options::{Role, SettingName, Settings, Verb};
pub use request::{Asked, Names, Request};
pub use value::or_default;
pub use words::read_words;
