//! Lists where those of some points are new.
ghost use Rattle.std.specs.Prelude.{◌≡◌, ◌<◌, IfOk, length};
ghost use Rattle.std.specs.List.{All};
ghost use Rattle.neighbour_lists.specs.Held.{BelongTo};
ghost use Rattle.neighbour_lists.specs.Offering.{Offers, ServesRows};
ghost use Rattle.neighbour_lists.specs.WrittenRows.{with_rows};

use crate::lists::Lists;
use crate::nearest::{Nearest, posts_for};
use crate::row_tasks::{RowRule, put_rows};
use ann_shelf::{Gate, NoMemory};
use bin_files::Points;
use graph_rows::FlatGraph;
use std::alloc::Global;
use std::thread::Threads;
use steal_pool::Rounds;

/// The lists with the new ones of some points by a rule, in memory of their own: as much as the lists, and a scratch for each worker.
pub(crate) fn lists_by<R: Threads + Sync, P: Rounds, L: RowRule<Scratch = Nearest>, G: Gate + Sync>(
    rt: &R,
    alloc: Global,
    points: &Points,
    lists: &Lists,
    rule: &L,
    ids: &[u32],
    pool: &mut P,
    gate: &G,
) -> Result<FlatGraph, NoMemory>
    requires belong { BelongTo points.now.vectors lists.now }
    requires inside { All (λ v. v < length points.now.vectors) ids.now }
    requires rule { (L.count rule.now ≡ length points.now.vectors) × (L.most rule.now ≡ lists.now.list) }
    requires serves { (s : Offers) → ServesRows (length points.now.vectors) lists.now.list s → L.serves rule.now s }
    ensures rows { IfOk result (λ g. g.rows ≡ with_rows (L.row_of rule.now) ids.now lists.now.rows) }
    ensures width { IfOk result (λ g. g.width ≡ lists.now.list) }
    ensures workers { P.count pool.new ≡ P.count pool.old }
{
    let mut rows = lists.rows.copy(alloc)?;
    let mut posts = posts_for(alloc, points, lists.list, pool.workers())?;
    put_rows(rt, alloc, pool, rule, ids, &mut rows, &mut posts, gate)?;
    Ok(rows)
}
