//! Lists at a moment.
ghost use Rattle.std.specs.Prelude.{◌≡◌, ◌<◌, length, map, take};
ghost use Rattle.std.specs.List.{filter};
ghost use Rattle.ann_defs.specs.Graph.{row_in};
ghost use Rattle.neighbour_lists.specs.Reversed.{edge_ids, reverse_in};

use crate::edge::Edge;
use crate::edges::Edges;
use graph_rows::FlatGraph;

/// Lists, and their edges in reverse.
#[derive(Clone, Copy)]
pub(crate) struct State<'a> {
    pub rows: &'a FlatGraph,
    pub edges: &'a Edges,
}

/// The neighbourhood of a point: its list, and the edges from its nearest reverse neighbours.
#[derive(Clone, Copy)]
pub(crate) struct Around<'a> {
    pub row: &'a [u32],
    pub edges: &'a [Edge],
}

impl<'a> State<'a> {
    /// The neighbourhood of a point, of at most `list` reverse neighbours.
    pub(crate) fn around(&self, list: u32, v: u32) -> Around<'a>
        requires { v < length self.now.rows.now.rows }
        ensures row { result.row.now ≡ row_in self.now.rows.now.rows v }
        ensures edges { edge_ids result.edges.now ≡ reverse_in self.now.edges.now list v }
    {
        let edges = self.edges.to(v);
        Around {
            row: self.rows.at(v),
            edges: &edges[..edges.len().min(list as usize)],
        }
    }
}
