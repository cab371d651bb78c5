//! All lists after a round.
ghost use Rattle.std.specs.Prelude.{◌≡◌, ◌^◌, ◌<◌, IfOk, length, map};
ghost use Rattle.std.specs.List.{range_with_len};
ghost use Rattle.neighbour_lists.specs.Edges.{edges_of};
ghost use Rattle.neighbour_lists.specs.Held.{BelongTo};
ghost use Rattle.neighbour_lists.specs.ListRound.{next_rows};
ghost use Rattle.neighbour_lists.specs.Reversed.{others_of};
ghost use Rattle.neighbour_lists.specs.Rounds.{active_ids};

use crate::lists::Lists;
use crate::lists_by::lists_by;
use crate::news::news_of;
use crate::next_row::NextRow;
use ann_shelf::{Gate, NoMemory};
use bin_files::Points;
use graph_rows::FlatGraph;
use std::alloc::Global;
use std::thread::Threads;
use steal_pool::Rounds;

/// The lists after a round, and the other reverse neighbours before it.
#[derive(Drop)]
pub(crate) struct Improved {
    pub rows: FlatGraph,
    pub others: FlatGraph,
}

/// The lists after a round, computed from the lists before it: those of active points by a task each, all others stay.
///
/// Where no point is active there is no round on the pool. Memory: six rows as large as the lists, the active ids, and a scratch for each worker.
pub(crate) fn next_lists<R: Threads + Sync, P: Rounds, G: Gate + Sync>(
    rt: &R,
    alloc: Global,
    points: &Points,
    lists: &Lists,
    pool: &mut P,
    gate: &G,
) -> Result<Improved, NoMemory>
    requires belong { BelongTo points.now.vectors lists.now }
    requires edges { lists.now.edges ≡ edges_of points.now.vectors lists.now.rows }
    ensures rows { IfOk result (λ g. g.rows.rows ≡ next_rows points.now.vectors lists.now.list lists.now.rows) }
    ensures width { IfOk result (λ g. g.rows.width ≡ lists.now.list) }
    ensures others { IfOk result (λ g. g.others.rows ≡ map (others_of points.now.vectors lists.now.list lists.now.rows) (range_with_len 0 (length points.now.vectors))) }
    ensures workers { P.count pool.new ≡ P.count pool.old }
{
    let ids = list_active(alloc, lists)?;
    let news = news_of(alloc, points, lists)?;
    let rule = NextRow {
        points,
        rows: &lists.rows,
        seen: &lists.seen,
        news: &news,
    };
    let rows = lists_by(rt, alloc, points, lists, &rule, &ids, pool, gate)?;
    Ok(Improved {
        rows,
        others: news.others,
    })
}

// The active points, ascending.
fn list_active(alloc: Global, lists: &Lists) -> Result<Vec<u32>, NoMemory>
    requires { length lists.now.active < 2 ^ 32 }
    ensures { IfOk result (λ ids. ids.items ≡ active_ids lists.now) }
{
    let mut ids = Vec::with_capacity(alloc, lists.active.len())?;
    for v in 0..lists.active.len() {
        if lists.active[v] {
            ids.push(v as u32)?;
        }
    }
    Ok(ids)
}
