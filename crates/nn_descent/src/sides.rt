//! Both directions of a list as candidates.
ghost use Rattle.std.specs.Prelude.{◌≡◌, ◌++◌, ◌<◌, ◌≤◌, IfOk, length, map, take};
ghost use Rattle.ann_defs.specs.declared.limits.TheConstants.{MAX_POINTS, MAX_DEGREE, MAX_WORKERS};
ghost use Rattle.steal_pool.specs.Work.{AllServe};
ghost use Rattle.ann_defs.specs.Graph.{without, row_in, AreGoodRows};
ghost use Rattle.ann_defs.specs.Nearness.{ids_of};
ghost use Rattle.near_lists.specs.Gathered.{IsGathered};
ghost use Rattle.neighbour_lists.specs.Edges.{edges_of};
ghost use Rattle.neighbour_lists.specs.ListRound.{sources_of};
ghost use Rattle.nn_descent.specs.Sides.{ServesSides};

use ann_defs::{MAX_DEGREE, Near};
use ann_shelf::NoMemory;
use bin_files::Points;
use graph_rows::FlatGraph;
use near_lists::{gather, next_stamp};
use neighbour_lists::{Edge, Edges};
use std::alloc::Global;
use steal_pool::{Post, posts_of};

/// A worker's scratch: room for the sources of a point and for its candidates, and marks of ids.
#[derive(Drop)]
pub(crate) struct Sides {
    pub(crate) sources: Vec<Near>,
    pub(crate) cands: Vec<Near>,
    // One for each point. None is later than `stamp`.
    pub(crate) marks: Vec<u32>,
    pub(crate) stamp: u32,
}

impl Sides {
    /// Room for `n` points. Memory: 20 bytes a point, all taken here. A failure leaves nothing.
    pub(crate) fn new(alloc: Global, n: u32) -> Result<Sides, NoMemory>
        requires { n ≤ MAX_POINTS }
        ensures { IfOk result (λ s. ServesSides n s) }
    {
        let none = Near { dist: 0, id: 0 };
        let sources = vec![in alloc; none; n as usize]?;
        let cands = vec![in alloc; none; n as usize + MAX_DEGREE as usize]?;
        let marks = vec![in alloc; 0u32; n as usize]?;
        Ok(Sides {
            sources,
            cands,
            marks,
            stamp: 0,
        })
    }
}

/// A post for each worker, with room for the points.
pub(crate) fn posts_for(
    alloc: Global,
    points: &Points,
    workers: u32,
) -> Result<Vec<Post<Sides>>, NoMemory>
    requires { workers ≤ MAX_WORKERS }
    ensures count { IfOk result (λ v. length v.items ≡ workers) }
    ensures serve { IfOk result (λ v. AllServe (ServesSides (length points.now.vectors)) v.items) }
{
    let n = points.count();
    posts_of(alloc, workers, || Sides::new(alloc, n))
}

// Copies the sources of edges to the front of the room, and returns how many they are.
fn copy_sources(edges: &[Edge], room: &mut [Near]) -> usize
    requires { length edges.now ≤ length room.old }
    ensures list { take result room.new ≡ map (λ e. e.source) edges.now }
    ensures count { result ≡ length edges.now }
{
    let mut count = 0;
    for edge in edges {
        room[count] = edge.source;
        count += 1;
    }
    count
}

/// Gathers the list of `v` and the points whose lists hold it, each once, with their squared distances to `v`. Returns how
/// many they are.
///
/// The sources come with their distances, which are not taken again.
pub(crate) fn gather_sides(
    points: &Points,
    rows: &FlatGraph,
    edges: &Edges,
    v: u32,
    sides: &mut Sides,
) -> usize
    requires v { v < length points.now.vectors }
    requires good { AreGoodRows (length points.now.vectors) rows.now.width rows.now.rows }
    requires edges { edges.now ≡ edges_of points.now.vectors rows.now.rows }
    requires serves { ServesSides (length points.now.vectors) sides.old }
    ensures gathered { IsGathered points.now.vectors v (row_in rows.now.rows v ++ sources_of rows.now.rows v) (take result sides.new.cands.items) }
    ensures bound { result ≤ length sides.new.cands.items }
    ensures serves { ServesSides (length points.now.vectors) sides.new }
{
    let row = rows.at(v);
    let count = copy_sources(edges.to(v), &mut sides.sources);
    sides.stamp = next_stamp(&mut sides.marks, sides.stamp);
    gather(
        points,
        v,
        &sides.sources[..count],
        row,
        &mut sides.cands,
        &mut sides.marks,
        sides.stamp,
    )
}
