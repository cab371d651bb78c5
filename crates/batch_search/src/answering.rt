//! How a query is answered.
ghost use Rattle.std.specs.Prelude.{◌≡◌, ℕ, ◌+◌, ◌*◌, ◌<◌, ◌≤◌, List, [], length, slice_index_or};
ghost use Rattle.ann_defs.specs.declared.limits.TheConstants.{MAX_BEAM, MAX_POINTS};
ghost use Rattle.std.specs.List.{All};
ghost use Rattle.ann_defs.specs.declared.near.Near.{Near};
ghost use Rattle.batch_search.specs.Blocks.{block_of};

/// Queries, numbered from 0, each with an answer: points and their squared distances to it, nearest first.
///
/// Workers share it and answer its queries at the same time, each with a scratch of its own.
pub trait Answering: Sync {
    /// What a worker needs to answer queries, one after another.
    type Scratch: Send;

    // the answer to each query, in the order of the queries
    ghost answers: { Self → List (List Near) };

    // no answer is longer
    ghost longest: { Self → ℕ };

    // which scratches serve
    ghost serves: { Self → Self.Scratch → Type 0 };

    /// How many queries there are.
    fn count(&self) -> u32
        ensures value { result ≡ length (answers self.now) }
        ensures small { result ≤ MAX_POINTS };

    /// How long an answer can be.
    fn longest(&self) -> u32
        ensures value { result ≡ longest self.now }
        ensures small { result ≤ MAX_BEAM }
        ensures short { All (λ nears. length nears ≤ longest self.now) (answers self.now) };

    /// Writes the answer to a query into a block, by `write_answer`. It takes no memory.
    fn answer(&self, scratch: &mut Self::Scratch, query: u32, out: &mut [u32])
        requires query { query < length (answers self.now) }
        requires out { length out.old ≡ 2 * longest self.now + 1 }
        requires scratch { serves self.now scratch.old }
        ensures out { out.new ≡ block_of (2 * longest self.now + 1) (slice_index_or (answers self.now) query []) }
        ensures scratch { serves self.now scratch.new };
}
