//! What neighbourhoods have that the last round didn't meet.
ghost use Rattle.std.specs.Prelude.{◌≡◌, IfOk, length, map};
ghost use Rattle.std.specs.List.{range_with_len};
ghost use Rattle.neighbour_lists.specs.Edges.{edges_of};
ghost use Rattle.neighbour_lists.specs.Fresh.{AreWithout};
ghost use Rattle.neighbour_lists.specs.Held.{BelongTo};
ghost use Rattle.neighbour_lists.specs.Reversed.{others_of};

use crate::fresh::hoods_without;
use crate::hoods::Hoods;
use crate::lists::Lists;
use crate::others::other_sides;
use ann_shelf::NoMemory;
use bin_files::Points;
use graph_rows::FlatGraph;
use std::alloc::Global;

/// The reverse neighbours of all points that their lists don't hold, and what is new and what is old in the neighbourhoods since the last round.
#[derive(Drop)]
pub(crate) struct News {
    pub others: FlatGraph,
    pub fresh: Hoods,
    pub stale: Hoods,
}

/// What is new in the neighbourhoods of lists whose edges are sorted. Memory: five rows as large as the lists.
pub(crate) fn news_of(alloc: Global, points: &Points, lists: &Lists) -> Result<News, NoMemory>
    requires belong { BelongTo points.now.vectors lists.now }
    requires edges { lists.now.edges ≡ edges_of points.now.vectors lists.now.rows }
    ensures others { IfOk result (λ n. n.others.rows ≡ map (others_of points.now.vectors lists.now.list lists.now.rows) (range_with_len 0 (length points.now.vectors))) }
    ensures fresh { IfOk result (λ n. AreWithout (length points.now.vectors) lists.now.seen_rows lists.now.seen_others lists.now.rows n.others.rows n.fresh.rows.rows n.fresh.others.rows) }
    ensures stale { IfOk result (λ n. AreWithout (length points.now.vectors) n.fresh.rows.rows n.fresh.others.rows lists.now.rows n.others.rows n.stale.rows.rows n.stale.others.rows) }
{
    let others = other_sides(alloc, points, &lists.rows, &lists.edges)?;
    let fresh = hoods_without(alloc, &lists.rows, &others, &lists.seen)?;
    let stale = hoods_without(alloc, &lists.rows, &others, &fresh)?;
    Ok(News {
        others,
        fresh,
        stale,
    })
}
