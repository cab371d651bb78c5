//! A tree that is grown.
ghost use Rattle.std.specs.Prelude.{◌≡◌, ◌<◌, ◌≤◌, IfOk, length};
ghost use Rattle.std.specs.List.{All};
ghost use Rattle.pivot_trees.specs.Leaves.{leaves_of, leaf_with};

use crate::leaves::grow_leaves;
use crate::places::place_ids;
use crate::splitter::Splitter;
use ann_shelf::{Gate, NoMemory};
use bin_files::Points;
use std::alloc::Global;
use std::marker::Model;
use std::thread::Threads;
use steal_pool::{Rounds, posts_of};

/// The leaves of a tree over a point set: each id is in one of them.
#[derive(Drop)]
pub struct Tree {
    count: u32,
    leaves: Vec<Vec<u32>>,
    leaf_at: Vec<usize>,
}

impl Model for Tree {
    ghost use Rattle.std.proofs.Props.{props};
    ghost use Rattle.pivot_trees.specs.Blocks.{lists_of};
    ghost use Rattle.pivot_trees.specs.Grown.{Grown, IsGrown, HasPlaces};

    ghost Value = { Grown };

    ghost view = { λ t. record { count = t.count; leaves = lists_of t.leaves.items } };

    ghost invariant = { λ t. IsGrown (record { count = t.count; leaves = lists_of t.leaves.items }) × HasPlaces t.count (lists_of t.leaves.items) t.leaf_at.items };
}

impl Tree {
    /// Grows tree number `tree` of a seed, whose leaves have at most `leaf` ids.
    ///
    /// The lists of one depth are split at the same time, each by one worker: the first depths have few. Memory: four
    /// bytes for each id and eight for its leaf, and while it grows the lists of two depths, with at most 16 bytes of
    /// blocks for each point beside them. It fails only with `NoMemory`, which leaves nothing.
    pub fn grow<R: Threads + Sync, P: Rounds, G: Gate + Sync>(
        rt: &R,
        alloc: Global,
        points: &Points,
        tree: u32,
        seed: u64,
        leaf: u32,
        pool: &mut P,
        gate: &G,
    ) -> Result<Tree, NoMemory>
        requires { 2 ≤ leaf }
        ensures tree { IfOk result (λ t. t ≡ record { count = length points.now.vectors; leaves = leaves_of points.now.vectors seed tree leaf }) }
        ensures workers { P.count pool.new ≡ P.count pool.old }
    {
        let mut posts = posts_of(alloc, pool.workers(), || Ok(()))?;
        let root = Splitter {
            points,
            seed,
            tree,
            depth: 0,
        };
        let leaves = grow_leaves(rt, alloc, root, leaf, pool, posts.as_mut_slice(), gate)?;
        let count = points.count();
        let leaf_at = place_ids(alloc, count, leaves.as_slice())?;
        Ok(Tree {
            count,
            leaves,
            leaf_at,
        })
    }

    /// The leaf that has the id, ascending. Takes no memory.
    pub fn leaf_of(&self, id: u32) -> &[u32]
        requires { id < self.now.count }
        ensures leaf { result.now ≡ leaf_with self.now.leaves id }
        ensures inside { All (λ u. u < self.now.count) result.now }
    {
        self.leaves[self.leaf_at[id as usize]].as_slice()
    }

    /// How many points the tree was grown over.
    pub fn count(&self) -> u32
        ensures value { result ≡ self.now.count }
        ensures inside { All (λ ids. All (λ u. u < self.now.count) ids) self.now.leaves }
    {
        self.count
    }
}
