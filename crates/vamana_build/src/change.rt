//! What a batch changes.
ghost use Rattle.std.specs.Prelude.{◌≡◌, ◌<◌, length};
ghost use Rattle.batch_insert.specs.Changes.{put_all};
ghost use Rattle.vamana_build.specs.Changes.{changed_row};

use batch_insert::ChangedRows;
use graph_rows::FlatGraph;
use std::marker::Model;

/// The rows that one batch changes: each id whose row differs after the batch, in ascending order, with its new row.
#[derive(Drop)]
pub struct BatchChange {
    batch: u32,
    rows: ChangedRows,
}

impl Model for BatchChange {
    ghost use Rattle.vamana_build.specs.Changes.{Change};

    ghost Value = { Change };

    ghost view = { λ c. record { batch = c.batch; rows = c.rows } };
}

impl BatchChange {
    pub(crate) fn new(batch: u32, rows: ChangedRows) -> BatchChange
        ensures { result ≡ record { batch = batch; rows = rows } }
    {
        BatchChange { batch, rows }
    }

    /// The number of the batch, counted from 1: a change of batch `k + 1` leads from the graph after `k` batches.
    pub fn batch(&self) -> u32
        ensures { result ≡ self.now.batch }
    {
        self.batch
    }

    /// How many rows differ.
    pub fn len(&self) -> u32
        ensures { result ≡ length self.now.rows }
    {
        self.rows.len()
    }

    /// The id of changed row `j`. Ids ascend.
    pub fn id(&self, j: u32) -> u32
        requires { j < length self.now.rows }
        ensures { result ≡ (changed_row self.now j).0 }
    {
        self.rows.id(j)
    }

    /// Changed row `j`, as it is after the batch.
    pub fn row(&self, j: u32) -> &[u32]
        requires { j < length self.now.rows }
        ensures { result.now ≡ (changed_row self.now j).1 }
    {
        self.rows.row(j)
    }

    /// Puts each changed row into a graph. A row whose id the graph doesn't hold, or which is longer than the graph's
    /// width, is left out; none is where the graph is the one after the batch before. Takes no memory.
    pub fn put_into(&self, graph: &mut FlatGraph)
        ensures { graph.new ≡ put_all graph.old self.now.rows }
    {
        self.rows.put_into(graph);
    }
}
