//! The real outside: `DirShelf`, the files of a folder of the system, and `StdOut`, the standard streams.
//!
//! Both obey the traits of `ann_shelf` and tell nothing of content, since no clause can say what a real file gives or takes.
#![tactic(auto)]

mod dir_shelf;
mod handles;
mod open_files;
mod part_file;
mod std_out;

pub use dir_shelf::DirShelf;
pub use std_out::StdOut;
