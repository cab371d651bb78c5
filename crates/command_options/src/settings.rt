//! The settings of a request.

use ann_defs::{Element, Kind, OrderKind, StartKind, Way};

/// All settings, in the order of the option table. What a command doesn't have keeps its default.
#[derive(Clone, Copy, Debug)]
pub struct Settings {
    pub kind: Kind,
    pub workers: u32,
    pub pool: Way,
    pub seed: u64,
    pub order: OrderKind,
    pub start: StartKind,
    /// The greatest length of a row (`R` in DiskANN, `M` in HNSW).
    pub degree: u32,
    /// The width of the search list of a build (`L` in DiskANN).
    pub beam: u32,
    /// The numerator of alpha.
    pub num: u32,
    /// The denominator of alpha.
    pub den: u32,
    /// The greatest number of points in a batch; where none is set, a fiftieth of the points.
    pub cap: Option<u32>,
    /// How often all points are inserted.
    pub passes: u32,
    /// How many leading zeros of a word lift a point by one layer.
    pub bits: u32,
    /// The greatest layer.
    pub max_level: u32,
    /// The length of the lists of nearest points.
    pub list: u32,
    /// The number of random trees.
    pub trees: u32,
    /// The most points of a leaf.
    pub leaf: u32,
    /// The most rounds over the lists.
    pub rounds: u32,
    /// The changes of a round after which no other one is made.
    pub floor: u64,
    /// The version of the index file.
    pub format: u32,
    /// The number of made points.
    pub count: u32,
    /// Their dimension.
    pub dim: u32,
    /// The number of made queries.
    pub queries: u32,
    /// The width of the search list of a query.
    pub search: u32,
    /// How many of the nearest ids a query asks for.
    pub k: u32,
    /// The number of callers that ask beside a build.
    pub callers: u32,
    /// The label that points are asked for.
    pub label: u32,
    /// What the bytes of points and queries stand for.
    pub element: Element,
}
