//! An index: its kind, its numbers, and its layers.
ghost use Rattle.std.specs.Prelude.{◌≡◌};
ghost use Rattle.graph_rows.specs.Index.{edges_of, longest_of};
ghost use Rattle.graph_rows.specs.Stamps.{IsStamped, stamped};
ghost use Rattle.graph_rows.specs.View.{contents, kind_code};
ghost use Rattle.graph_rows.specs.WellFormed.{IsWellFormed, IsWithinLimits};

use crate::{FlatGraph, Layer, Stamp};
use ann_defs::Kind;

/// An index over the points with the ids below `count`.
///
/// `base` is layer 0, which holds every id; `upper` are the layers above it, from layer 1 on (HNSW). It is empty for
/// the flat kinds, Vamana and NN-Descent's search graph. A search begins at `start`. A `stamp` says what
/// the index was built from; the builders give none, `with_stamp` sets one.
///
/// The fields are plain: whether they belong together is said by `IsWellFormed`, which the builds ensure and
/// `write_index` asks for.
#[derive(Drop)]
pub struct Index {
    pub kind: Kind,
    pub count: u32,
    pub dim: u32,
    pub degree: u32,
    pub start: u32,
    pub base: FlatGraph,
    pub upper: Vec<Layer>,
    pub stamp: Option<Stamp>,
}

impl Index {
    /// How many edges there are: the ids in all rows of all layers.
    pub fn edges(&self) -> u64
        requires { IsWellFormed (contents self.now) }
        ensures { result ≡ edges_of (contents self.now) }
    {
        let mut edges = self.base.edges();
        for layer in &self.upper {
            let more = layer.edges();
            edges += more;
        }
        edges
    }

    /// The length of the longest row of all layers.
    pub fn longest(&self) -> u32
        ensures { result ≡ longest_of (contents self.now) }
    {
        let mut longest = self.base.longest();
        for layer in &self.upper {
            longest = longest.max(layer.longest());
        }
        longest
    }

    /// The index with a stamp that its kind may have, or without one.
    pub fn with_stamp(mut self, stamp: Option<Stamp>) -> Index
        requires well_formed { IsWellFormed (contents self) }
        requires allowed { IsStamped (kind_code self.kind) stamp }
        ensures value { contents result ≡ stamped stamp (contents self) }
        ensures well_formed { IsWellFormed (contents result) }
        ensures limits { IsWithinLimits (contents self) → IsWithinLimits (contents result) }
    {
        self.stamp = stamp;
        self
    }
}
