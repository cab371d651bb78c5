//! A round over the lists.
ghost use Rattle.std.specs.Prelude.{◌≡◌, ℕ, ◌<◌, true, false, IfOk, IfErr, length, map, slice_index_or};
ghost use Rattle.std.specs.List.{All, range_with_len, sum_by};
ghost use Rattle.ann_defs.specs.Graph.{row_in};
ghost use Rattle.neighbour_lists.specs.declared.edge.Edge.{Edge};
ghost use Rattle.neighbour_lists.specs.Changes.{entered_between};
ghost use Rattle.neighbour_lists.specs.Edges.{edges_of};
ghost use Rattle.neighbour_lists.specs.Held.{BelongTo, is_active};
ghost use Rattle.neighbour_lists.specs.ListRound.{next_rows, changed};
ghost use Rattle.neighbour_lists.specs.Reversed.{others_of};
ghost use Rattle.neighbour_lists.specs.Settled.{IsStill};

use crate::changes::count_changes;
use crate::edges::Edges;
use crate::flags::{raise_all, set_flags};
use crate::hoods::Hoods;
use crate::lists::Lists;
use crate::next_lists::next_lists;
use crate::state::State;
use ann_shelf::{Gate, NoMemory};
use bin_files::Points;
use graph_rows::FlatGraph;
use std::alloc::Global;
use std::mem::replace;
use std::thread::Threads;
use steal_pool::Rounds;

// All that a round takes memory for: the next lists, the other reverse neighbours before them, their edges in reverse, and a flag for each point.
#[derive(Drop)]
struct Next {
    rows: FlatGraph,
    others: FlatGraph,
    edges: Edges,
    moved: Vec<bool>,
}

impl Lists {
    /// One round: each list becomes the nearest of itself and of the neighbourhoods of its neighbourhood, all of them as
    /// they were before. Returns how many entries changed.
    ///
    /// There is a task for each active point and no other one: a point that isn't active keeps its list. Afterwards a point is active unless its
    /// list, its neighbourhood, and the neighbourhoods of its neighbours are as they were before. Fails only with `NoMemory`, which leaves the
    /// lists as they were, and all points active. Memory: all before a list changes: the next lists and their edges in reverse, rows five times
    /// as large as the lists, the ids of the active points, a byte for each point, and a scratch for each worker.
    pub fn round<R: Threads + Sync, P: Rounds, G: Gate + Sync>(
        &mut self,
        rt: &R,
        alloc: Global,
        points: &Points,
        pool: &mut P,
        gate: &G,
    ) -> Result<u64, NoMemory>
        requires { BelongTo points.now.vectors self.old }
        ensures rows { IfOk result (λ _. self.new.rows ≡ next_rows points.now.vectors self.old.list self.old.rows) }
        ensures changed { IfOk result (λ c. c ≡ changed points.now.vectors self.old.list self.old.rows) }
        ensures list { self.new.list ≡ self.old.list }
        ensures kept { IfErr result (λ _. self.new.rows ≡ self.old.rows) }
        ensures belong { BelongTo points.now.vectors self.new }
        ensures workers { P.count pool.new ≡ P.count pool.old }
    {
        match self.next_state(rt, alloc, points, pool, gate) {
            Ok(next) => Ok(self.enter(next)),
            Err(refusal) => {
                raise_all(self.active.as_mut_slice());
                Err(refusal)
            }
        }
    }

    // The lists after a round, with all that it takes memory for. The edges of the lists are sorted before.
    fn next_state<R: Threads + Sync, P: Rounds, G: Gate + Sync>(
        &mut self,
        rt: &R,
        alloc: Global,
        points: &Points,
        pool: &mut P,
        gate: &G,
    ) -> Result<Next, NoMemory>
        requires { BelongTo points.now.vectors self.old }
        ensures list { self.new.list ≡ self.old.list }
        ensures kept { self.new.rows ≡ self.old.rows }
        ensures belong { BelongTo points.now.vectors self.new }
        ensures sorted { IfOk result (λ _. self.new.edges ≡ edges_of points.now.vectors self.new.rows) }
        ensures rows { IfOk result (λ n. n.rows.rows ≡ next_rows points.now.vectors self.new.list self.new.rows) }
        ensures width { IfOk result (λ n. n.rows.width ≡ self.new.list) }
        ensures edges { IfOk result (λ n. n.edges ≡ edges_of points.now.vectors (next_rows points.now.vectors self.new.list self.new.rows)) }
        ensures others { IfOk result (λ n. n.others.rows ≡ map (others_of points.now.vectors self.new.list self.new.rows) (range_with_len 0 (length points.now.vectors))) }
        ensures moved { IfOk result (λ n. length n.moved.items ≡ length points.now.vectors) }
        ensures workers { P.count pool.new ≡ P.count pool.old }
    {
        self.sort_edges(alloc, points)?;
        let improved = next_lists(rt, alloc, points, self, pool, gate)?;
        let edges = Edges::of(alloc, points, &improved.rows)?;
        let moved = vec![in alloc; false; points.count() as usize]?;
        Ok(Next {
            rows: improved.rows,
            others: improved.others,
            edges,
            moved,
        })
    }

    // Sorts the edges of the lists, unless they are sorted already.
    fn sort_edges(&mut self, alloc: Global, points: &Points) -> Result<(), NoMemory>
        requires { BelongTo points.now.vectors self.old }
        ensures list { self.new.list ≡ self.old.list }
        ensures rows { self.new.rows ≡ self.old.rows }
        ensures edges { IfOk result (λ _. self.new.edges ≡ edges_of points.now.vectors self.new.rows) }
        ensures belong { BelongTo points.now.vectors self.new }
    {
        if self.sorted {
            return Ok(());
        }
        let edges = Edges::of(alloc, points, &self.rows)?;
        self.edges = edges;
        self.sorted = true;
        Ok(())
    }

    // Takes the next lists over, and returns how many entries changed. Takes no memory.
    fn enter(&mut self, mut next: Next) -> u64
        requires width { next.rows.width ≡ self.old.list }
        requires count { length next.rows.rows ≡ length self.old.active }
        requires moved { length next.moved.items ≡ length self.old.active }
        requires old { length self.old.rows ≡ length self.old.active }
        requires rows { (v : ℕ) → v < length self.old.active → All (λ u. u < length self.old.active) (row_in self.old.rows v) }
        requires sources { All (λ (e : Edge). e.source.id < length self.old.active) self.old.edges }
        ensures list { self.new.list ≡ self.old.list }
        ensures rows { self.new.rows ≡ next.rows.rows }
        ensures edges { self.new.edges ≡ next.edges }
        ensures seen { (self.new.seen_rows ≡ self.old.rows) × (self.new.seen_others ≡ next.others.rows) }
        ensures flags { length self.new.active ≡ length self.old.active }
        ensures still { (v : ℕ) → v < length self.old.active → is_active self.new v ≡ false → IsStill self.old.list self.old.rows self.old.edges next.rows.rows next.edges v }
        ensures changes { result ≡ sum_by (entered_between self.old.rows next.rows.rows) (range_with_len 0 (length next.rows.rows)) }
    {
        let changes = count_changes(&self.rows, &next.rows);
        let old = State {
            rows: &self.rows,
            edges: &self.edges,
        };
        let new = State {
            rows: &next.rows,
            edges: &next.edges,
        };
        set_flags(
            self.active.as_mut_slice(),
            next.moved.as_mut_slice(),
            &old,
            &new,
            self.list,
        );
        self.seen.rows = replace(&mut self.rows, next.rows);
        self.seen.others = next.others;
        self.edges = next.edges;
        self.sorted = true;
        changes
    }
}
