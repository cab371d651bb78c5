//! The leaves of a tree join the lists.
ghost use Rattle.std.specs.Prelude.{◌≡◌, ◌<◌, true, false, length, replicate, IfOk, IfErr};
ghost use Rattle.std.specs.List.{All};
ghost use Rattle.neighbour_lists.specs.Held.{ArePointLists, BelongTo};
ghost use Rattle.neighbour_lists.specs.ListRound.{with_leaves};
ghost use Rattle.pivot_trees.specs.Leaves.{leaf_with};

use crate::flags::raise_all;
use crate::leaf_row::LeafRow;
use crate::lists::Lists;
use crate::lists_by::lists_by;
use ann_shelf::{Gate, NoMemory};
use bin_files::Points;
use graph_rows::FlatGraph;
use pivot_trees::Tree;
use seeded_order::file_order;
use std::alloc::Global;
use std::thread::Threads;
use steal_pool::Rounds;

impl Lists {
    /// Each list becomes the nearest of itself and the leaf of its point, and all points become active.
    ///
    /// There is a task for each point. Fails only with `NoMemory`, which leaves the lists as they were, and all points active. Memory: rows
    /// as large as the new lists', and a scratch for each worker. Edges are not sorted before a round or a search graph reads them.
    pub fn add_leaves<R: Threads + Sync, P: Rounds, G: Gate + Sync>(
        &mut self,
        rt: &R,
        alloc: Global,
        points: &Points,
        tree: &Tree,
        pool: &mut P,
        gate: &G,
    ) -> Result<(), NoMemory>
        requires belong { BelongTo points.now.vectors self.old }
        requires tree { tree.now.count ≡ length points.now.vectors }
        ensures rows { IfOk result (λ _. self.new.rows ≡ with_leaves points.now.vectors self.old.list (leaf_with tree.now.leaves) self.old.rows) }
        ensures list { self.new.list ≡ self.old.list }
        ensures kept { IfErr result (λ _. self.new.rows ≡ self.old.rows) }
        ensures belong { BelongTo points.now.vectors self.new }
        ensures workers { P.count pool.new ≡ P.count pool.old }
    {
        match leaf_rows(rt, alloc, points, self, tree, pool, gate) {
            Ok(rows) => {
                self.take_rows(rows);
                Ok(())
            }
            Err(refusal) => {
                raise_all(self.active.as_mut_slice());
                Err(refusal)
            }
        }
    }

    // Takes the rows with the leaves over, whose edges aren't sorted. Takes no memory.
    fn take_rows(&mut self, rows: FlatGraph)
        requires { rows.width ≡ self.old.list }
        ensures list { self.new.list ≡ self.old.list }
        ensures rows { self.new.rows ≡ rows.rows }
        ensures unsorted { self.new.sorted ≡ false }
        ensures active { self.new.active ≡ replicate (length self.old.active) true }
        ensures seen { (self.new.seen_rows ≡ self.old.seen_rows) × (self.new.seen_others ≡ self.old.seen_others) }
    {
        self.rows = rows;
        self.sorted = false;
        raise_all(self.active.as_mut_slice());
    }
}

// The lists with the leaves of a tree, in memory of their own.
fn leaf_rows<R: Threads + Sync, P: Rounds, G: Gate + Sync>(
    rt: &R,
    alloc: Global,
    points: &Points,
    lists: &Lists,
    tree: &Tree,
    pool: &mut P,
    gate: &G,
) -> Result<FlatGraph, NoMemory>
    requires belong { BelongTo points.now.vectors lists.now }
    requires tree { tree.now.count ≡ length points.now.vectors }
    ensures lists { IfOk result (λ g. ArePointLists points.now.vectors lists.now.list g.rows) }
    ensures rows { IfOk result (λ g. g.rows ≡ with_leaves points.now.vectors lists.now.list (leaf_with tree.now.leaves) lists.now.rows) }
    ensures width { IfOk result (λ g. g.width ≡ lists.now.list) }
    ensures inside { IfOk result (λ _. All (λ ids. All (λ u. u < length points.now.vectors) ids) tree.now.leaves) }
    ensures workers { P.count pool.new ≡ P.count pool.old }
{
    prove!(tree.count() == points.count());
    let ids = file_order(alloc, points.count())?;
    let rule = LeafRow {
        points,
        rows: &lists.rows,
        tree,
    };
    lists_by(rt, alloc, points, lists, &rule, &ids, pool, gate)
}
