//! The choices that settings and files share.

/// The kind of an index. Its code in a file is 1, 2 or 3, in this order.
#[derive(Clone, Copy, Debug, PartialEq, Eq)]
pub enum Kind {
    /// One flat graph, built by batches of searches and prunes (DiskANN, ParlayANN).
    Vamana,
    /// Layers of such graphs (HNSW).
    Hnsw,
    /// Lists of the nearest, improved in rounds (NN-Descent).
    Nnd,
}

/// In which order points are inserted.
#[derive(Clone, Copy, Debug, PartialEq, Eq)]
pub enum OrderKind {
    /// By id.
    File,
    /// By seeded words.
    Seeded,
}

/// Where searches start.
#[derive(Clone, Copy, Debug, PartialEq, Eq)]
pub enum StartKind {
    /// At the first point of the order.
    First,
    /// At the medoid, which is then inserted first.
    Medoid,
}

/// What the bytes of a point stand for.
#[derive(Clone, Copy, Debug, PartialEq, Eq)]
pub enum Element {
    /// A stored number is the number itself, 0 to 255.
    U8,
    /// A stored number is 128 more than the number, which is -128 to 127.
    I8,
}

/// Who runs the tasks of a round. The results don't depend on it.
#[derive(Clone, Copy, Debug, PartialEq, Eq)]
pub enum Way {
    /// One task after another, in the caller's thread, whatever the number of workers says.
    Serial,
    /// One fixed share of the tasks for each worker, in threads of `rayon`.
    Shares,
    /// Shares whose tasks the workers claim and steal from each other, in threads of std.
    Stealing,
}
