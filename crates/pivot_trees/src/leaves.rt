//! The leaves of a tree, depth by depth.
ghost use Rattle.std.specs.Prelude.{◌≡◌, ◌≤◌, IfOk, length};
ghost use Rattle.pivot_trees.specs.Blocks.{lists_of};
ghost use Rattle.pivot_trees.specs.Leaves.{leaves_of};

use crate::depth::split_lists;
use crate::parts::keep_list;
use crate::splitter::Splitter;
use ann_shelf::{Gate, NoMemory};
use seeded_order::file_order;
use std::alloc::Global;
use std::thread::Threads;
use steal_pool::{Post, Rounds};

/// The leaves, those of a lesser depth first, those of one depth from left to right. `root` splits the list of all ids.
///
/// Each split leaves both parts shorter than their list, so no list is left at the depth that is the number of points.
pub(crate) fn grow_leaves<R: Threads + Sync, P: Rounds, G: Gate + Sync>(
    rt: &R,
    alloc: Global,
    root: Splitter,
    leaf: u32,
    pool: &mut P,
    posts: &mut [Post<()>],
    gate: &G,
) -> Result<Vec<Vec<u32>>, NoMemory>
    requires leaf { 2 ≤ leaf }
    requires posts { length posts.old ≡ P.count pool.old }
    ensures leaves { IfOk result (λ v. lists_of v.items ≡ leaves_of root.entry.points.now.vectors root.entry.seed root.entry.tree leaf) }
    ensures workers { P.count pool.new ≡ P.count pool.old }
{
    let mut leaves = Vec::new(alloc);
    let mut lists = Vec::new(alloc);
    keep_list(
        leaf,
        file_order(alloc, root.points.count())?,
        &mut lists,
        &mut leaves,
    )?;
    let mut number = 0;
    let mut depth = 0;
    'depths: while !lists.is_empty() {
        let splitter = Splitter {
            points: root.points,
            seed: root.seed,
            tree: root.tree,
            depth,
        };
        let mut parts = Vec::new(alloc);
        split_lists(
            rt,
            alloc,
            pool,
            &splitter,
            number,
            lists.as_slice(),
            leaf,
            posts,
            gate,
            &mut parts,
            &mut leaves,
        )?;
        number += lists.len() as u64;
        depth += 1;
        lists = parts;
    }
    Ok(leaves)
}
