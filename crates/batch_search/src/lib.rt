//! Answers many queries in rounds of at most 4,096, by any pool of workers.
//!
//! `Answering` is anything that answers queries: `answer_round` answers those from a given one on, and `Answers` hands
//! the answers out in the order of the queries, the same for every pool and number of workers.
//!
//! A `QueryBatch` is an index with its points, the queries, the beam of each search and how many of what it finds are
//! answered; `posts_for` makes what its workers need, once. Its answers are GreedySearch's (DiskANN, Algorithm 1),
//! `answers_of` in `specs/Answers.antt`.
#![tactic(auto)]

mod answering;
mod answers;
mod batch;
mod block;
mod queries;
mod round;
mod tasks;

pub use answering::Answering;
pub use answers::Answers;
pub use batch::QueryBatch;
pub use beam_search::posts_for;
pub use block::write_answer;
pub use round::answer_round;
pub use tasks::MAX_TASKS;
