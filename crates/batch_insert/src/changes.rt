//! The rows that a batch changes.
ghost use Rattle.std.specs.Prelude.{◌≡◌, ◌+◌, ◌^◌, ◌<◌, ◌≤◌, ◌++◌, ◌∷◌, not, if◌then◌else◌, nat_eq, IfOk, [], length};
ghost use lib.Pointwise.{pointwise};
ghost use Rattle.batch_insert.specs.Changes.{entry_at, put_all, put_all_in_layer};

use crate::entry::ChangedRow;
use ann_shelf::NoMemory;
use graph_rows::{FlatGraph, Layer, Rows};
use std::alloc::Global;
use std::marker::Model;

/// Rows of a graph that differ after a batch: ids in ascending order, each with its new row.
#[derive(Drop)]
pub struct ChangedRows {
    rows: Vec<ChangedRow>,
}

impl Model for ChangedRows {
    ghost use Rattle.std.specs.Prelude.{◌^◌, ◌<◌, ℕ, List, length};
    ghost use Rattle.batch_insert.specs.Entries.{entries};

    ghost Value = { List (ℕ × List ℕ) };

    ghost view = { λ c. entries c.rows.items };

    ghost invariant = { λ c. length c.rows.items < 2 ^ 32 };
}

impl ChangedRows {
    // No rows.
    pub(crate) fn none(alloc: Global) -> ChangedRows
        ensures { result ≡ [] }
    {
        ChangedRows {
            rows: Vec::new(alloc),
        }
    }

    // Adds an id with its new row, where that differs from the old one.
    pub(crate) fn add(
        &mut self,
        alloc: Global,
        id: u32,
        new: &[u32],
        old: &[u32],
    ) -> Result<(), NoMemory>
        requires { length self.old + 1 < 2 ^ 32 }
        ensures { IfOk result (λ _. self.new ≡ self.old ++ (if not (pointwise nat_eq new.now old.now) then (id, new.now) ∷ [] else [])) }
    {
        if new == old {
            return Ok(());
        }
        let row = new.to_vec(alloc)?;
        self.rows.push(ChangedRow { id, row })?;
        Ok(())
    }

    /// How many rows differ.
    pub fn len(&self) -> u32
        ensures { result ≡ length self.now }
    {
        self.rows.len() as u32
    }

    /// The id of changed row `j`. Ids ascend.
    pub fn id(&self, j: u32) -> u32
        requires { j < length self.now }
        ensures { result ≡ (entry_at self.now j).0 }
    {
        self.rows[j as usize].id
    }

    /// Changed row `j`, as it is after the batch.
    pub fn row(&self, j: u32) -> &[u32]
        requires { j < length self.now }
        ensures { result.now ≡ (entry_at self.now j).1 }
    {
        self.rows[j as usize].row.as_slice()
    }

    /// Puts each changed row into a graph. A row whose id the graph doesn't hold, or which is longer than the graph's
    /// width, is left out; none is where the graph is the one before the batch. Takes no memory.
    pub fn put_into(&self, graph: &mut FlatGraph)
        ensures { graph.new ≡ put_all graph.old self.now }
    {
        for changed in &self.rows {
            if changed.id < graph.count() && changed.row.len() <= graph.width() as usize {
                graph.set_row(changed.id, changed.row.as_slice());
            }
        }
    }

    /// The same for a layer.
    pub fn put_into_layer(&self, layer: &mut Layer)
        ensures { layer.new ≡ put_all_in_layer layer.old self.now }
    {
        for changed in &self.rows {
            if layer.holds(changed.id) && changed.row.len() <= layer.width() as usize {
                layer.set_row(changed.id, changed.row.as_slice());
            }
        }
    }
}
