//! The search graph of lists.
ghost use Rattle.std.specs.Prelude.{◌≡◌, ◌+◌, ◌*◌, ◌≤◌, IfOk, length};
ghost use Rattle.std.proofs.Props.{props};
ghost use Rattle.ann_defs.specs.declared.limits.TheConstants.{MAX_DEGREE, MAX_WORDS};
ghost use Rattle.ann_defs.specs.Graph.{AreGoodRows};
ghost use Rattle.neighbour_lists.specs.Edges.{edges_of};
ghost use Rattle.neighbour_lists.specs.Held.{BelongTo};
ghost use Rattle.nn_descent.specs.SearchGraph.{graph_rows};

use crate::sides::{Sides, gather_sides, posts_for};
use ann_defs::Alpha;
use ann_shelf::{Gate, NoMemory};
use bin_files::Points;
use graph_rows::FlatGraph;
use neighbour_lists::{Edges, Lists, RowRule, put_rows};
use robust_prune::prune;
use seeded_order::file_order;
use std::alloc::Global;
use std::thread::Threads;
use steal_pool::Rounds;

/// The rows of the search graph: of each point, its list and the points whose lists hold it, pruned.
#[derive(Drop)]
pub(crate) struct PrunedRow<'a> {
    pub points: &'a Points,
    pub rows: &'a FlatGraph,
    pub edges: &'a Edges,
    pub alpha: Alpha,
    pub degree: u32,
    ghost good: { AreGoodRows (length points.now.vectors) rows.now.width rows.now.rows } by { Prim.hlevel props },
    ghost reversed: { edges.now ≡ edges_of points.now.vectors rows.now.rows },
}

impl<'a> RowRule for PrunedRow<'a> {
    ghost use Rattle.std.specs.Prelude.{length};
    ghost use Rattle.nn_descent.specs.SearchGraph.{graph_row, row_short};
    ghost use Rattle.nn_descent.specs.Sides.{ServesSides};

    type Scratch = Sides;

    ghost count = { λ r. length r.points.now.vectors };

    ghost most = { λ r. r.degree };

    ghost row_of = { λ r. graph_row r.points.now.vectors r.rows.now.rows r.alpha.num r.alpha.den r.degree };

    ghost serves = { λ r s. ServesSides (length r.points.now.vectors) s };

    ghost short = { λ r v _. row_short r.points.now.vectors r.rows.now.rows r.alpha.num r.alpha.den r.degree v };

    fn degree(&self) -> u32 {
        self.degree
    }

    fn write(&self, scratch: &mut Sides, v: u32, out: &mut [u32]) -> usize {
        let count = gather_sides(self.points, self.rows, self.edges, v, scratch);
        prune(
            self.points,
            v,
            &mut scratch.cands[..count],
            self.alpha,
            self.degree,
            out,
        )
    }
}

/// The search graph of lists: each row is pruned by RobustPrune (DiskANN, Algorithm 2) from the point's list and the points
/// whose lists hold it.
///
/// A task for each point. Fails only with `NoMemory`, which leaves nothing. Memory: rows of `4 * n * (degree + 1)` bytes, for each
/// worker 20 bytes a point, and twelve bytes for each id of the lists where leaves came after the last round.
pub fn search_graph<R: Threads + Sync, P: Rounds, G: Gate + Sync>(
    rt: &R,
    alloc: Global,
    points: &Points,
    lists: &Lists,
    degree: u32,
    alpha: Alpha,
    pool: &mut P,
    gate: &G,
) -> Result<FlatGraph, NoMemory>
    requires belong { BelongTo points.now.vectors lists.now }
    requires degree { (1 ≤ degree) × (degree ≤ MAX_DEGREE) }
    requires words { length points.now.vectors * (degree + 1) ≤ MAX_WORDS }
    ensures rows { IfOk result (λ g. g ≡ record { width = degree; rows = graph_rows points.now.vectors lists.now.rows alpha.num alpha.den degree }) }
    ensures good { IfOk result (λ g. AreGoodRows (length points.now.vectors) degree g.rows) }
    ensures workers { P.count pool.new ≡ P.count pool.old }
{
    if lists.is_sorted() {
        return pruned_rows(
            rt,
            alloc,
            points,
            lists.rows(),
            lists.edges(),
            degree,
            alpha,
            pool,
            gate,
        );
    }
    let edges = Edges::of(alloc, points, lists.rows())?;
    pruned_rows(
        rt,
        alloc,
        points,
        lists.rows(),
        &edges,
        degree,
        alpha,
        pool,
        gate,
    )
}

// The search graph of lists whose edges are sorted.
fn pruned_rows<R: Threads + Sync, P: Rounds, G: Gate + Sync>(
    rt: &R,
    alloc: Global,
    points: &Points,
    rows: &FlatGraph,
    edges: &Edges,
    degree: u32,
    alpha: Alpha,
    pool: &mut P,
    gate: &G,
) -> Result<FlatGraph, NoMemory>
    requires good { AreGoodRows (length points.now.vectors) rows.now.width rows.now.rows }
    requires edges { edges.now ≡ edges_of points.now.vectors rows.now.rows }
    requires degree { (1 ≤ degree) × (degree ≤ MAX_DEGREE) }
    requires words { length points.now.vectors * (degree + 1) ≤ MAX_WORDS }
    ensures rows { IfOk result (λ g. g ≡ record { width = degree; rows = graph_rows points.now.vectors rows.now.rows alpha.num alpha.den degree }) }
    ensures good { IfOk result (λ g. AreGoodRows (length points.now.vectors) degree g.rows) }
    ensures workers { P.count pool.new ≡ P.count pool.old }
{
    let n = points.count();
    let mut graph = FlatGraph::new(alloc, n, degree)?;
    let ids = file_order(alloc, n)?;
    let mut posts = posts_for(alloc, points, pool.workers())?;
    let rule = PrunedRow {
        points,
        rows,
        edges,
        alpha,
        degree,
    };
    put_rows(rt, alloc, pool, &rule, &ids, &mut graph, &mut posts, gate)?;
    Ok(graph)
}
