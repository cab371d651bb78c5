//! The new row of a point.
ghost use Rattle.std.specs.Prelude.{◌≡◌, ◌<◌, ◌≤◌, length, take};
ghost use Rattle.ann_defs.specs.Graph.{AreGoodRows};
ghost use Rattle.ann_defs.specs.BatchInsert.{new_row_of};
ghost use Rattle.vamana_build.specs.Builds.{build_by};
ghost use Rattle.beam_search.specs.Serving.{Serves};

use crate::plan::Plan;
use ann_defs::Alpha;
use beam_search::{Scratch, candidates, search};
use graph_rows::{FlatGraph, Rows};
use robust_prune::prune;

/// The new row of p in this graph: what a search from the start visits, and p's row, pruned by a factor.
pub(crate) fn new_row(
    plan: &Plan,
    alpha: Alpha,
    graph: &FlatGraph,
    p: u32,
    scratch: &mut Scratch,
    out: &mut [u32],
) -> usize
    requires p { p < length plan.now.points.now.vectors }
    requires good { AreGoodRows (length plan.now.points.now.vectors) plan.now.settings.degree graph.now.rows }
    requires serves { Serves (length plan.now.points.now.vectors) plan.now.settings.beam scratch.old }
    requires out { plan.now.settings.degree ≤ length out.old }
    ensures row { take result out.new ≡ new_row_of (build_by plan.now.points.now.vectors plan.now.settings alpha) graph.now.rows p }
    ensures bound { result ≤ plan.now.settings.degree }
    ensures serves { Serves (length plan.now.points.now.vectors) plan.now.settings.beam scratch.new }
{
    let points = plan.points;
    search(
        points,
        graph,
        &[plan.start()],
        points.at(p),
        plan.settings.beam,
        scratch,
    );
    let found = candidates(scratch, points, p, graph.row(p));
    prune(points, p, found, alpha, plan.settings.degree, out)
}
