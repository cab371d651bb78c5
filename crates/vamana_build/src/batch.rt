//! One batch, in two rounds.
ghost use Rattle.std.specs.Prelude.{◌≡◌, ◌<◌, IfOk, OnErr, length};
ghost use Rattle.std.specs.List.{range_with_len};
ghost use Rattle.ann_defs.specs.Graph.{row_in};
ghost use Rattle.ann_defs.specs.BatchInsert.{last_row_of};
ghost use Rattle.batch_insert.specs.Changes.{differing};
ghost use Rattle.beam_search.specs.Serving.{Serves};
ghost use Rattle.steal_pool.specs.Work.{AllServe};
ghost use Rattle.vamana_build.specs.Builds.{build_by};
ghost use Rattle.vamana_build.specs.Settled.{AreSettled};
ghost use Rattle.vamana_build.specs.Wanted.{new_blocks};

use crate::merges::Merges;
use crate::new_rows::NewRows;
use crate::settled::settle;
use ann_shelf::{Gate, NoMemory};
use batch_insert::{ChangedRows, FreshRows, changed_rows};
use beam_search::Scratch;
use std::alloc::Global;
use std::thread::Threads;
use steal_pool::{Post, Rounds};

/// The rows that a batch changes: new rows in one round, merged rows in a second. The graph stays as it is.
///
/// `counts` tells how many ids at the front of each row one prune left together, and is brought on to the rows after the
/// batch. A failure leaves it as it was.
pub(crate) fn rows_changed<R: Threads + Sync, P: Rounds, G: Gate + Sync>(
    rt: &R,
    alloc: Global,
    pool: &mut P,
    rows: &NewRows,
    counts: &mut [u8],
    posts: &mut [Post<Scratch>],
    gate: &G,
) -> Result<ChangedRows, NoMemory>
    requires settled { AreSettled (build_by rows.now.plan.now.points.now.vectors rows.now.plan.now.settings rows.now.alpha) (row_in rows.now.graph.now.rows) counts.old }
    requires posts { length posts.old ≡ P.count pool.old }
    requires serve { AllServe (Serves (length rows.now.plan.now.points.now.vectors) rows.now.plan.now.settings.beam) posts.old }
    requires some { 0 < length rows.now.batch.now }
    ensures rows { IfOk result (λ c. c ≡ differing (row_in rows.now.graph.now.rows) (last_row_of (build_by rows.now.plan.now.points.now.vectors rows.now.plan.now.settings rows.now.alpha) rows.now.graph.now.rows rows.now.batch.now) (range_with_len 0 (length rows.now.plan.now.points.now.vectors))) }
    ensures settled { IfOk result (λ _. AreSettled (build_by rows.now.plan.now.points.now.vectors rows.now.plan.now.settings rows.now.alpha) (last_row_of (build_by rows.now.plan.now.points.now.vectors rows.now.plan.now.settings rows.now.alpha) rows.now.graph.now.rows rows.now.batch.now) counts.new) }
    ensures as_before { OnErr result (counts.new ≡ counts.old) }
    ensures serve { AllServe (Serves (length rows.now.plan.now.points.now.vectors) rows.now.plan.now.settings.beam) posts.new }
    ensures workers { P.count pool.new ≡ P.count pool.old }
{
    let blocks = pool.run_round(rt, alloc, rows, posts, gate)?;
    let fresh = FreshRows {
        ids: rows.batch,
        blocks: &blocks,
    };
    let changed = merges_changed(rt, alloc, pool, rows, &fresh, counts, posts, gate)?;
    settle(rows, &fresh, &changed, counts);
    Ok(changed)
}

// The rows that a batch changes whose new rows are given.
fn merges_changed<R: Threads + Sync, P: Rounds, G: Gate + Sync>(
    rt: &R,
    alloc: Global,
    pool: &mut P,
    rows: &NewRows,
    fresh: &FreshRows,
    counts: &[u8],
    posts: &mut [Post<Scratch>],
    gate: &G,
) -> Result<ChangedRows, NoMemory>
    requires ids { fresh.now.ids.now ≡ rows.now.batch.now }
    requires blocks { fresh.now.blocks.now ≡ new_blocks (build_by rows.now.plan.now.points.now.vectors rows.now.plan.now.settings rows.now.alpha) rows.now.graph.now.rows rows.now.batch.now }
    requires settled { AreSettled (build_by rows.now.plan.now.points.now.vectors rows.now.plan.now.settings rows.now.alpha) (row_in rows.now.graph.now.rows) counts.now }
    requires posts { length posts.old ≡ P.count pool.old }
    requires serve { AllServe (Serves (length rows.now.plan.now.points.now.vectors) rows.now.plan.now.settings.beam) posts.old }
    ensures rows { IfOk result (λ c. c ≡ differing (row_in rows.now.graph.now.rows) (last_row_of (build_by rows.now.plan.now.points.now.vectors rows.now.plan.now.settings rows.now.alpha) rows.now.graph.now.rows rows.now.batch.now) (range_with_len 0 (length rows.now.plan.now.points.now.vectors))) }
    ensures serve { AllServe (Serves (length rows.now.plan.now.points.now.vectors) rows.now.plan.now.settings.beam) posts.new }
    ensures workers { P.count pool.new ≡ P.count pool.old }
{
    let merging = Merges { rows, counts };
    changed_rows(
        rt, alloc, pool, rows.graph, rows.batch, fresh, &merging, posts, gate,
    )
}
