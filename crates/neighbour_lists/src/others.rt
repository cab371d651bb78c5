//! The reverse neighbours of all points, as rows.
ghost use Rattle.std.specs.Prelude.{◌≡◌, ◌≤◌, IfOk, length, map, not, take};
ghost use Rattle.std.specs.List.{filter, range_with_len};
ghost use Rattle.ann_defs.specs.declared.limits.TheConstants.{MAX_DEGREE};
ghost use Rattle.ann_defs.specs.Graph.{has, AreGoodRows};
ghost use Rattle.neighbour_lists.specs.Edges.{edges_of};
ghost use Rattle.neighbour_lists.specs.Reversed.{edge_ids, others_of};

use crate::edge::Edge;
use crate::edges::Edges;
use ann_defs::MAX_DEGREE;
use ann_shelf::NoMemory;
use bin_files::Points;
use graph_rows::FlatGraph;
use std::alloc::Global;

/// For each point those of its reverse neighbours that its list doesn't hold, nearest first.
///
/// They are read in place, many times in a round, and stand side by side. Memory: as much as the lists.
pub(crate) fn other_sides(
    alloc: Global,
    points: &Points,
    rows: &FlatGraph,
    edges: &Edges,
) -> Result<FlatGraph, NoMemory>
    requires good { AreGoodRows (length points.now.vectors) rows.now.width rows.now.rows }
    requires edges { edges.now ≡ edges_of points.now.vectors rows.now.rows }
    ensures rows { IfOk result (λ g. g.rows ≡ map (others_of points.now.vectors rows.now.width rows.now.rows) (range_with_len 0 (length points.now.vectors))) }
    ensures width { IfOk result (λ g. g.width ≡ rows.now.width) }
{
    let mut others = rows.copy(alloc)?;
    let mut room = [0u32; MAX_DEGREE as usize];
    for u in 0..points.count() {
        let to = edges.to(u);
        let count = to.len().min(rows.width() as usize);
        let len = write_others(&to[..count], rows.at(u), &mut room);
        others.set_row(u, &room[..len]);
    }
    Ok(others)
}

// Writes the sources of edges that a row doesn't hold to the front of the room, and returns how many they are.
fn write_others(edges: &[Edge], row: &[u32], room: &mut [u32]) -> usize
    requires { length edges.now ≤ length room.old }
    ensures ids { take result room.new ≡ filter (λ w. not (has row.now w)) (edge_ids edges.now) }
    ensures bound { result ≤ length edges.now }
    ensures len { length room.new ≡ length room.old }
{
    let mut len = 0;
    for edge in edges {
        if !row.contains(&edge.source.id) {
            room[len] = edge.source.id;
            len += 1;
        }
    }
    len
}
