//! The search of an index.
ghost use Rattle.std.specs.Prelude.{◌≡◌, ◌≤◌, nat_lt, length};
ghost use Rattle.ann_defs.specs.Distance.{dim_of};
ghost use Rattle.ann_defs.specs.Nearness.{near_cmp};
ghost use Rattle.ann_defs.specs.Ordered.{Rises};
ghost use Rattle.beam_search.specs.Measured.{AreMeasured};
ghost use Rattle.beam_search.specs.Serving.{Serves};
ghost use Rattle.graph_rows.specs.View.{contents};
ghost use Rattle.graph_rows.specs.WellFormed.{IsWellFormed};
ghost use Rattle.layered_search.specs.Descent.{descent_in};

use crate::entering::enter;
use beam_search::{Scratch, search};
use bin_files::Points;
use graph_rows::Index;

/// Searches an index of any kind for what is near to the query. The scratch has the answer: `found` of `beam_search`
/// are the nearest that were found in layer 0, at most `beam`.
///
/// This is K-NN-SEARCH (HNSW, Algorithm 5): from the start down through the upper layers, each with beam 1, and then
/// layer 0 with `beam` (`ef` in HNSW, `L` in DiskANN). An index with one layer is searched from its start, as
/// GreedySearch of DiskANN (Algorithm 1) does. It takes no memory and refuses nothing.
pub fn descend(points: &Points, index: &Index, query: &[u8], beam: u32, scratch: &mut Scratch)
    requires index { IsWellFormed (contents index.now) }
    requires count { index.now.count ≡ length points.now.vectors }
    requires query { length query.now ≡ dim_of points.now.vectors }
    requires beam { 1 ≤ beam }
    requires serves { Serves (length points.now.vectors) beam scratch.old }
    ensures descent { scratch.new.last.found ≡ descent_in points.now.vectors (contents index.now) query.now beam }
    ensures found { AreMeasured points.now.vectors query.now (λ u. nat_lt u (length points.now.vectors)) scratch.new.last.found }
    ensures rises { Rises near_cmp scratch.new.last.found }
    ensures short { length scratch.new.last.found ≤ beam }
    ensures serves { Serves (length points.now.vectors) beam scratch.new }
{
    let entry = enter(points, &index.upper, 0, index.start, query, scratch);
    search(points, &index.base, &[entry], query, beam, scratch);
}
