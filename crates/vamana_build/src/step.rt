//! From one graph of a build to the next.
ghost use Rattle.std.specs.Prelude.{◌≡◌, ◌+◌, ◌*◌, ◌%◌, ◌<◌, ◌≤◌, IfOk, OnErr, length};
ghost use Rattle.ann_defs.specs.declared.limits.TheConstants.{MAX_POINTS};
ghost use Rattle.ann_defs.specs.Graph.{row_in};
ghost use Rattle.ann_defs.specs.BatchInsert.{bound_at};
ghost use Rattle.steal_pool.specs.Work.{AllServe};
ghost use Rattle.vamana_build.specs.Builds.{pass_of, batches_of, build_at, graph_at, rows_at};
ghost use Rattle.vamana_build.specs.Settled.{AreSettled};
ghost use Rattle.vamana_build.specs.Changes.{change_at};
ghost use Rattle.beam_search.specs.Serving.{Serves};

use crate::batch::rows_changed;
use crate::change::BatchChange;
use crate::factor::alpha_after;
use crate::new_rows::NewRows;
use crate::plan::Plan;
use ann_shelf::{Gate, NoMemory};
use batch_insert::sort_ids;
use beam_search::Scratch;
use graph_rows::FlatGraph;
use std::alloc::Global;
use std::thread::Threads;
use steal_pool::{Post, Rounds};

/// The change by the batch after the first `k`, whose points stand from `from` to `to` in the order. A
/// pass has `pass` batches.
///
/// `counts` tells how many ids at the front of each row one prune left together, and is brought on to the next graph. A
/// failure leaves it as it was.
pub(crate) fn change_of<R: Threads + Sync, P: Rounds, G: Gate + Sync>(
    rt: &R,
    alloc: Global,
    pool: &mut P,
    plan: &Plan,
    k: u32,
    pass: u32,
    from: u32,
    to: u32,
    graph: &FlatGraph,
    counts: &mut [u8],
    posts: &mut [Post<Scratch>],
    gate: &G,
) -> Result<BatchChange, NoMemory>
    requires from { from ≡ bound_at (length plan.now.points.now.vectors) plan.now.cap (k % pass) }
    requires to { to ≡ bound_at (length plan.now.points.now.vectors) plan.now.cap (k % pass + 1) }
    requires pass { pass ≡ pass_of plan.now.points.now.vectors plan.now.settings }
    requires some { from < to }
    requires within { to ≤ length plan.now.points.now.vectors }
    requires few { k < 2 * MAX_POINTS }
    requires left { k < batches_of plan.now.points.now.vectors plan.now.settings }
    requires graph { graph.now ≡ graph_at plan.now.points.now.vectors plan.now.settings k }
    requires settled { AreSettled (build_at plan.now.points.now.vectors plan.now.settings k) (row_in (rows_at plan.now.points.now.vectors plan.now.settings k)) counts.old }
    requires posts { length posts.old ≡ P.count pool.old }
    requires serve { AllServe (Serves (length plan.now.points.now.vectors) plan.now.settings.beam) posts.old }
    ensures change { IfOk result (λ c. c ≡ change_at plan.now.points.now.vectors plan.now.settings k) }
    ensures settled { IfOk result (λ _. AreSettled (build_at plan.now.points.now.vectors plan.now.settings (k + 1)) (row_in (rows_at plan.now.points.now.vectors plan.now.settings (k + 1))) counts.new) }
    ensures as_before { OnErr result (counts.new ≡ counts.old) }
    ensures serve { AllServe (Serves (length plan.now.points.now.vectors) plan.now.settings.beam) posts.new }
    ensures workers { P.count pool.new ≡ P.count pool.old }
{
    let mut batch = plan.order[from as usize..to as usize].to_vec(alloc)?;
    sort_ids(&mut batch);
    let rows = NewRows {
        plan,
        alpha: alpha_after(plan, pass, k),
        graph,
        batch: batch.as_slice(),
    };
    let changed = rows_changed(rt, alloc, pool, &rows, counts, posts, gate)?;
    Ok(BatchChange::new(k + 1, changed))
}
