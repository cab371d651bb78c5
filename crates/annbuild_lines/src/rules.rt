//! The rules of the files that are neither points nor an index.

/// A rule of a file of ids that are to be taken out of an index.
#[derive(Clone, Copy, Debug, PartialEq, Eq)]
pub enum GoneRule {
    ShortHeader,
    /// It names all points.
    AllGone,
    /// Ids ascend.
    Order,
    IdRange,
    Short,
    Trailing,
}

/// A rule of a file of labels.
#[derive(Clone, Copy, Debug, PartialEq, Eq)]
pub enum LabelRule {
    ShortHeader,
    ZeroCount,
    Short,
    /// A point without a label.
    ZeroMask,
    Trailing,
}
