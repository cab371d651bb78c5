//! What each seat of a round knows. Of these types only `Size` has values.
use std::collections::LinkedList;

/// How many tasks a round has, how many words each block, and how many workers there are.
#[derive(Clone, Copy)]
pub struct Size {
    pub tasks: u32,
    pub width: u32,
    pub workers: u32,
}

/// What a step found a task's word to say.
pub enum Found {
    /// Held by this number.
    HeldBy(u32),
    /// Done by this number.
    DoneBy(u32),
}

/// What a refused claim found: the task, and what its word said.
pub struct Finding {
    pub task: u32,
    pub found: Found,
}

/// A task that is done, by a number, with its block.
pub struct Entry {
    pub task: u32,
    pub worker: u32,
    pub block: LinkedList<u32>,
}

/// What the holder of a seat knows. A seat that was joined is no longer live. `made`, the number of seats made, and
/// `back`, the numbers that came back, are the caller's alone.
pub struct View {
    pub size: Size,
    pub live: bool,
    pub number: u32,
    pub held: Option<u32>,
    pub entries: LinkedList<Entry>,
    pub finding: Option<Finding>,
    pub made: u32,
    pub back: LinkedList<u32>,
}
