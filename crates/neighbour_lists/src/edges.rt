//! The edges of lists in reverse.
ghost use Rattle.std.specs.Prelude.{◌≡◌, ℕ, ◌==◌, ◌+◌, ◌-◌, ◌<◌, ◌≤◌, ◌++◌, IfOk, length, map, take, drop, slice_index};
ghost use Rattle.std.specs.List.{All, filter, flat_map, range_with_len};
ghost use Rattle.std.specs.List.Sorted.{IsNonDecreasingBy};
ghost use Rattle.ann_defs.specs.declared.limits.TheConstants.{MAX_POINTS, MAX_WORDS};
ghost use Rattle.ann_defs.specs.Graph.{AreGoodRows};
ghost use Rattle.ann_defs.specs.Ordered.{ordered};
ghost use Rattle.neighbour_lists.specs.declared.edge.Edge.{Edge};
ghost use Rattle.neighbour_lists.specs.Edges.{edge_cmp, edge_to, edges_from, edges_of, IsStart};

use crate::edge::Edge;
use ann_shelf::NoMemory;
use bin_files::Points;
use graph_rows::FlatGraph;
use near_lists::near_to;
use std::alloc::Global;
use std::marker::Model;

/// All edges of lists, by their targets, and of one target by nearness.
///
/// The edges to a target are lent without a search: beside the edges stands for each target how many edges come before its own.
#[derive(Drop)]
pub struct Edges {
    edges: Vec<Edge>,
    // for each target where its edges start, and one more
    starts: Vec<u32>,
}

impl Model for Edges {
    ghost use Rattle.std.specs.Prelude.{List};
    ghost use Rattle.neighbour_lists.specs.declared.edge.Edge.{Edge};
    ghost use Rattle.neighbour_lists.specs.Edges.{AreStarts};

    ghost Value = { List Edge };

    ghost view = { λ e. e.edges.items };

    ghost invariant = { λ e. AreStarts e.edges.items e.starts.items };
}

impl Edges {
    /// The edges of lists of these points, sorted once. Fails only with `NoMemory`, which leaves nothing. Memory: twelve bytes an edge, and four a
    /// point.
    pub fn of(alloc: Global, points: &Points, rows: &FlatGraph) -> Result<Edges, NoMemory>
        requires count { length rows.now.rows ≡ length points.now.vectors }
        requires good { AreGoodRows (length points.now.vectors) rows.now.width rows.now.rows }
        ensures { IfOk result (λ e. e ≡ edges_of points.now.vectors rows.now.rows) }
    {
        let mut edges = all_edges(alloc, points, rows)?;
        sort_edges(&mut edges);
        let starts = starts_of(alloc, edges.as_slice(), points.count())?;
        Ok(Edges { edges, starts })
    }

    /// The edges to a target, the nearest source first. Takes no memory.
    pub fn to(&self, target: u32) -> &[Edge]
        ensures { result.now ≡ filter (λ e. e.target == target) self.now }
    {
        let at = target as usize;
        if at + 1 >= self.starts.len() {
            return &[];
        }
        between(self.edges.as_slice(), self.starts[at], self.starts[at + 1])
    }
}

// The edges between two places.
fn between(edges: &[Edge], from: u32, end: u32) -> &[Edge]
    requires from { from ≤ end }
    requires end { end ≤ length edges.now }
    ensures { result.now ≡ take (end - from) (drop from edges.now) }
{
    &edges[from as usize..end as usize]
}

// Adds the edges from u, the row of u being given.
fn add_edges(points: &Points, u: u32, row: &[u32], edges: &mut Vec<Edge>) -> Result<(), NoMemory>
    requires u { u < length points.now.vectors }
    requires row { All (λ v. v < length points.now.vectors) row.now }
    ensures { IfOk result (λ _. edges.new.items ≡ edges.old.items ++ map (edge_to points.now.vectors u) row.now) }
{
    for target in row {
        let source = near_to(points, points.at(*target), u);
        edges.push(Edge {
            target: *target,
            source,
        })?;
    }
    Ok(())
}

// The edges of lists, row after row.
fn all_edges(alloc: Global, points: &Points, rows: &FlatGraph) -> Result<Vec<Edge>, NoMemory>
    requires count { length rows.now.rows ≡ length points.now.vectors }
    requires good { AreGoodRows (length points.now.vectors) rows.now.width rows.now.rows }
    ensures edges { IfOk result (λ v. v.items ≡ flat_map (edges_from points.now.vectors rows.now.rows) (range_with_len 0 (length rows.now.rows))) }
    ensures few { IfOk result (λ v. length v.items ≤ MAX_WORDS) }
{
    let mut edges = Vec::with_capacity(alloc, rows.edges() as usize)?;
    for u in 0..rows.count() {
        add_edges(points, u, rows.at(u), &mut edges)?;
    }
    Ok(edges)
}

// Puts edges in order, each once.
fn sort_edges(edges: &mut Vec<Edge>)
    ensures items { edges.new.items ≡ ordered edge_cmp edges.old.items }
    ensures few { length edges.new.items ≤ length edges.old.items }
{
    edges.sort_unstable();
    edges.dedup();
}

// Where the edges to each of n targets start, and where those of the last one end.
fn starts_of(alloc: Global, edges: &[Edge], n: u32) -> Result<Vec<u32>, NoMemory>
    requires sorted { IsNonDecreasingBy (λ (e : Edge). e.target) edges.now }
    requires few { length edges.now ≤ MAX_WORDS }
    requires n { n ≤ MAX_POINTS }
    ensures count { IfOk result (λ v. length v.items ≡ n + 1) }
    ensures starts { IfOk result (λ v. (t : ℕ) → t < n + 1 → IsStart edges.now t (slice_index v.items t)) }
{
    let mut starts = Vec::with_capacity(alloc, n as usize + 1)?;
    for t in 0..n + 1 {
        starts.push(start_of(edges, t))?;
    }
    Ok(starts)
}

// How many edges have a lesser target.
fn start_of(edges: &[Edge], target: u32) -> u32
    requires sorted { IsNonDecreasingBy (λ (e : Edge). e.target) edges.now }
    requires few { length edges.now ≤ MAX_WORDS }
    ensures { IsStart edges.now target result }
{
    edges.partition_point(|e| e.target < target) as u32
}
