//! What has rows.
ghost use Rattle.std.specs.Prelude.{◌≡◌, ℕ, List, Bool, IsTrue};

/// A finite map from the ids that are held to rows of ids, a directed graph as lists of out-neighbours.
///
/// Searches and merges go through a graph by this trait alone, so they serve a flat graph, a layer of HNSW and a graph
/// under change alike. A row is lent in place; no call takes memory.
pub trait Rows {
    /// Whether an id is held.
    ghost held: { Self → ℕ → Bool };

    /// The row of an id that is held.
    ghost row_of: { Self → ℕ → List ℕ };

    /// Whether the graph has a row for this id.
    fn holds(&self, id: u32) -> bool
        ensures { result ≡ held self.now id };

    /// The out-neighbours of an id that is held.
    fn row(&self, id: u32) -> &[u32]
        requires { IsTrue (held self.now id) }
        ensures { result.now ≡ row_of self.now id };
}
