//! An id with its distance.

/// An id with the squared distance of its point to what is looked for.
///
/// Ordered by distance; ties go to the smaller id.
#[derive(Clone, Copy, Debug, PartialEq, Eq, PartialOrd, Ord)]
pub struct Near {
    /// The squared Euclidean distance.
    pub dist: u32,
    /// The point, counted from 0.
    pub id: u32,
}
