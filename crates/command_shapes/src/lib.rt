//! What commands share: a command as data, how it ends, and the bodies that most of them have.
#![tactic(auto)]

mod buffer;
mod faults;
mod lines;
mod printing;
mod reading;
mod rounds;
mod storing;

pub use buffer::{PIECE, flush, make_room};
pub use printing::{print, print_both};
pub use reading::{read_index_of, read_points_of};
pub use rounds::answer_and_print;
pub use storing::{Storable, store, store_and_print};
