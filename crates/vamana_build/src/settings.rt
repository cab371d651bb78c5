//! The settings of a build.
use ann_defs::{Alpha, OrderKind, StartKind};

/// What decides a Vamana index of a point set.
///
/// In the words of DiskANN, `degree` is `R`, `beam` is `L`, and `alpha` is the square of the paper's factor, since
/// distances are squared here.
#[derive(Clone, Copy)]
pub struct VamanaSettings {
    /// In which order points are inserted.
    pub order: OrderKind,
    /// Whether searches start at the first point of the order, or at the medoid, which is then inserted first.
    pub start: StartKind,
    /// The seed of the words that a seeded order goes by.
    pub seed: u64,
    /// The greatest length of a row, 1 to 128.
    pub degree: u32,
    /// The width of the search list, 1 to 1,024.
    pub beam: u32,
    /// The factor of the prunes, in the last pass.
    pub alpha: Alpha,
    /// The greatest number of points in a batch, 1 to 4,194,304. None means a fiftieth of the points, rounded up.
    pub cap: Option<u32>,
    /// How often all points are gone through, 1 or 2. In each pass but the last the factor of the prunes is 1.
    pub passes: u32,
}
