//! The settings that have a range.

/// A setting that has a range. Alpha has two: its denominator and its numerator.
#[derive(Clone, Copy, Debug, PartialEq, Eq)]
pub enum SettingName {
    Kind,
    Workers,
    Degree,
    Beam,
    AlphaDen,
    AlphaNum,
    Cap,
    Passes,
    Bits,
    MaxLevel,
    List,
    Trees,
    Leaf,
    RoundCount,
    Format,
    Count,
    Dim,
    QueryCount,
    Search,
    K,
    Callers,
    Label,
}
