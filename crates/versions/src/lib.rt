//! Published graphs of a Vamana build, and callers that ask in them beside the builder.
//!
//! `share` makes a `Publisher` and its callers from the graph after the first batch. The publisher publishes the change of
//! each further batch as one step; a `Caller` is answered in the graph after some whole batch, never one before the
//! greatest that it was told of or answered in, and waits for nobody. A `BatchNote` tells one caller of a batch.
#![tactic(auto)]

mod answer;
mod asking;
mod caller;
mod course;
mod door;
mod note;
mod publisher;
mod rule;
mod shared;
mod sharing;

pub use answer::Answer;
pub use caller::Caller;
pub use note::BatchNote;
pub use publisher::Publisher;
pub use sharing::share;
