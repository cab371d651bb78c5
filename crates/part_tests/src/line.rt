//! The line of four points that several tests are about, with a graph over it.
ghost use Rattle.std.specs.Prelude.{◌≡◌, ◌∷◌, [], IfOk, length};
ghost use Rattle.ann_defs.specs.Distance.{dim_of};
ghost use Rattle.ann_defs.specs.Graph.{AreGoodRows};
ghost use Rattle.graph_rows.specs.View.{contents};
ghost use Rattle.graph_rows.specs.WellFormed.{IsWellFormed};

use ann_defs::Near;
use ann_shelf::NoMemory;
use bin_files::Points;
use graph_rows::{FlatGraph, Index, Kind, Rows};
use std::alloc::Global;

// The points 0, 10, 20 and 30.
pub(crate) fn line(alloc: Global) -> Result<Points, NoMemory>
    ensures count { IfOk result (λ p. length p.vectors ≡ 4) }
    ensures dim { IfOk result (λ p. dim_of p.vectors ≡ 1) }
{
    Ok(Points::from_bytes(1, vec![in alloc; 0u8, 10, 20, 30]?))
}

// 0 leads to 1, 1 to 0 and 2, and both 2 and 3 lead to 1. No row leads to 3.
pub(crate) fn line_graph(alloc: Global) -> Result<FlatGraph, NoMemory>
    ensures value { IfOk result (λ g. g ≡ record { width = 2; rows = (1 ∷ []) ∷ (0 ∷ 2 ∷ []) ∷ (1 ∷ []) ∷ (1 ∷ []) ∷ [] }) }
    ensures good { IfOk result (λ g. AreGoodRows 4 2 g.rows) }
{
    let mut graph = FlatGraph::new(alloc, 4, 2)?;
    graph.set_row(0, &[1]);
    graph.set_row(1, &[0, 2]);
    graph.set_row(2, &[1]);
    graph.set_row(3, &[1]);
    Ok(graph)
}

// The index with these rows, whose searches start at 0.
pub(crate) fn line_index(alloc: Global) -> Result<Index, NoMemory>
    ensures well_formed { IfOk result (λ i. IsWellFormed (contents i)) }
    ensures count { IfOk result (λ i. i.count ≡ 4) }
{
    let base = line_graph(alloc)?;
    Ok(Index {
        kind: Kind::Vamana,
        count: 4,
        dim: 1,
        degree: 2,
        start: 0,
        base,
        upper: Vec::new(alloc),
        stamp: None,
    })
}

// An id with its squared distance.
pub(crate) fn near(dist: u32, id: u32) -> Near {
    Near { dist, id }
}

// Whether these are the rows of a graph.
pub(crate) fn has_rows(graph: &FlatGraph, rows: &[&[u32]]) -> bool {
    if graph.count() as usize != rows.len() {
        return false;
    }
    for (id, row) in rows.iter().enumerate() {
        if graph.row(id as u32) != *row {
            return false;
        }
    }
    true
}
