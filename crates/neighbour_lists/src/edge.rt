//! An edge of a list in reverse.
use ann_defs::Near;

/// An edge: the source has the target in its list.
///
/// Ordered by the target, and of one target by the nearness of the source.
#[derive(Clone, Copy, Debug, PartialEq, Eq, PartialOrd, Ord)]
pub struct Edge {
    /// The id that stands in the list of the source.
    pub target: u32,
    /// The id whose list has the target, with its squared distance to the target.
    pub source: Near,
}
