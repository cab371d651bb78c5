//! The outside of the program, as its other crates see it: files by name (`Shelf`), an output of bytes (`Out`),
//! and a gate that is called at moments of a build (`Gate`).
//!
//! The real folder and the standard streams are in `folder_shelf`. `MemShelf` and `MemOut` stand for them in
//! tests: of their calls those with chosen numbers fail, and each moves as few bytes as is set. `SoundShelf` is a shelf on which no call fails.
//! An error is a `Slip`: `Failed` comes only where the object's count of faults rose, `NoMemory` where there was no
//! memory. `append_all` and `write_all` carry a piece through, however little one call takes.
#![tactic(auto)]

mod calls;
mod faults;
mod gate;
mod mem_out;
mod mem_shelf;
mod named_files;
mod out;
mod pieces;
mod shelf;
mod slip;
mod sound_shelf;
mod whole;

pub use faults::counted;
pub use gate::{FreeGate, Gate};
pub use mem_out::MemOut;
pub use mem_shelf::MemShelf;
pub use out::Out;
pub use shelf::Shelf;
pub use slip::{NoMemory, Quantity, Slip};
pub use sound_shelf::SoundShelf;
pub use whole::{append_all, write_all};
