//! The lists of one depth, split in rounds.
ghost use Rattle.std.specs.Prelude.{◌≡◌, ◌+◌, ◌*◌, ◌^◌, ◌++◌, ◌<◌, ◌≤◌, IfOk, length, take};
ghost use Rattle.std.specs.List.{All, filter};
ghost use Rattle.ann_defs.specs.declared.limits.TheConstants.{MAX_POINTS};
ghost use Rattle.pivot_trees.specs.Blocks.{lists_of, AreSplittable};
ghost use Rattle.pivot_trees.specs.Leaves.{is_long, is_short, parts_from};

use crate::parts::keep_parts;
use crate::splits::Splits;
use crate::splitter::Splitter;
use ann_shelf::{Gate, NoMemory};
use std::alloc::Global;
use std::thread::Threads;
use steal_pool::{Post, Rounds};

// How many of the lists are split in one round, and how wide its blocks are: as many as have no more than `limit` words.
fn round_of(lists: &[Vec<u32>], limit: usize) -> (usize, u32)
    requires some { 0 < length lists.now }
    requires few { length lists.now ≤ MAX_POINTS }
    requires short { All (λ ids. length ids ≤ MAX_POINTS) (lists_of lists.now) }
    requires one { All (λ ids. length ids + 1 ≤ limit) (lists_of lists.now) }
    ensures some { 0 < result.0 }
    ensures within { result.0 ≤ length lists.now }
    ensures fit { All (λ ids. length ids + 1 ≤ result.1) (lists_of (take result.0 lists.now)) }
    ensures wide { 0 < result.1 }
    ensures words { result.0 * result.1 ≤ limit }
{
    let mut width = lists[0].len() + 1;
    for i in 1..lists.len() {
        let wider = width.max(lists[i].len() + 1);
        if (i + 1) * wider > limit {
            return (i, width as u32);
        }
        width = wider;
    }
    (lists.len(), width as u32)
}

/// Splits the long lists of one depth, which are numbered from `number` on. Adds their parts to the long ones, or to the
/// leaves.
///
/// There are several rounds where a few lists are much longer than the others: blocks of one round are equally wide, and
/// have at most four words for each point together. Memory: blocks and parts.
pub(crate) fn split_lists<'a, R: Threads + Sync, P: Rounds, G: Gate + Sync>(
    rt: &R,
    alloc: Global,
    pool: &mut P,
    splitter: &'a Splitter<'a>,
    number: u64,
    lists: &'a [Vec<u32>],
    leaf: u32,
    posts: &mut [Post<()>],
    gate: &G,
    long: &mut Vec<Vec<u32>>,
    leaves: &mut Vec<Vec<u32>>,
) -> Result<(), NoMemory>
    requires lists { AreSplittable (length splitter.now.points.now.vectors) (lists_of lists.now) }
    requires short { All (λ ids. length ids ≤ length splitter.now.points.now.vectors) (lists_of lists.now) }
    requires few { length lists.now ≤ MAX_POINTS }
    requires number { number + length lists.now < 2 ^ 62 }
    requires posts { length posts.old ≡ P.count pool.old }
    ensures long { IfOk result (λ _. lists_of long.new.items ≡ lists_of long.old.items ++ filter (is_long leaf) (parts_from splitter.now.points.now.vectors splitter.now.seed splitter.now.tree splitter.now.depth number (lists_of lists.now))) }
    ensures leaves { IfOk result (λ _. lists_of leaves.new.items ≡ lists_of leaves.old.items ++ filter (is_short leaf) (parts_from splitter.now.points.now.vectors splitter.now.seed splitter.now.tree splitter.now.depth number (lists_of lists.now))) }
    ensures posts { length posts.new ≡ length posts.old }
    ensures workers { P.count pool.new ≡ P.count pool.old }
{
    let limit = 4 * (splitter.points.count() as usize + 1);
    let mut from = 0;
    while from < lists.len() {
        let (count, width) = round_of(&lists[from..], limit);
        let work = Splits {
            splitter,
            number: number + from as u64,
            lists: &lists[from..from + count],
            width,
        };
        let blocks = pool.run_round(rt, alloc, &work, posts, gate)?;
        keep_parts(alloc, &work, &blocks, leaf, long, leaves)?;
        from += count;
    }
    Ok(())
}
