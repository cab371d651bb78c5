//! The settings of a build.
use ann_defs::{Alpha, StartKind};

/// What decides an index of the pyNNDescent profile of a point set.
#[derive(Clone, Copy)]
pub struct NndSettings {
    /// Whether searches start at id 0, or at the medoid.
    pub start: StartKind,
    /// The seed of the words that the trees go by.
    pub seed: u64,
    /// The greatest length of a row of the search graph, 1 to 128.
    pub degree: u32,
    /// The factor of the last prune.
    pub alpha: Alpha,
    /// The greatest length of a list, 1 to 128.
    pub list: u32,
    /// How many trees the lists begin with.
    pub trees: u32,
    /// The most points of a leaf, at least 2.
    pub leaf: u32,
    /// The most rounds.
    pub rounds: u32,
    /// The changes of a round after which no other one is made.
    pub floor: u64,
}
