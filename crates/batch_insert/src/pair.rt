//! A reverse edge.

/// A proposal to a target: the source has it in its row, so the target may take the source into its own.
///
/// Ordered by the target, and of one target by the source.
#[derive(Clone, Copy, Debug, PartialEq, Eq, PartialOrd, Ord)]
pub struct Pair {
    /// The point that is offered a reverse edge.
    pub target: u32,
    /// The point that the reverse edge would lead to.
    pub source: u32,
}
