//! The settings of a build.
use ann_defs::OrderKind;

/// What decides an HNSW index of a point set, beside the levels where these are given.
///
/// In the words of HNSW, `degree` is `M` (and a row of layer 0 has at most `2 * M` ids), and `beam` is
/// `efConstruction`.
#[derive(Clone, Copy)]
pub struct HnswSettings {
    /// In which order points are inserted, but for the entry point, which comes first.
    pub order: OrderKind,
    /// The seed of the words that a seeded order and the levels go by.
    pub seed: u64,
    /// The greatest length of a row above layer 0, 1 to 64. In layer 0 it is twice that.
    pub degree: u32,
    /// The width of the search list, 1 to 1,024.
    pub beam: u32,
    /// How many leading zero bits of a point's word make one level, 1 to 8.
    pub bits: u32,
    /// The greatest level, 0 to 15.
    pub max_level: u8,
    /// The greatest number of points in a batch, 1 to 4,194,304. None means a fiftieth of the points, rounded up.
    pub cap: Option<u32>,
}
