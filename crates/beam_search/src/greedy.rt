//! GreedySearch with a scratch.
ghost use Rattle.std.specs.Prelude.{◌≡◌, ℕ, true, ◌<◌, ◌≤◌, length};
ghost use Rattle.std.specs.List.{All};
ghost use Rattle.ann_defs.specs.Distance.{dim_of};
ghost use Rattle.ann_defs.specs.Ordered.{Rises};
ghost use Rattle.ann_defs.specs.Nearness.{near_cmp};
ghost use Rattle.ann_defs.specs.Graph.{IsGraph};
ghost use Rattle.ann_defs.specs.GreedySearch.{search_of};
ghost use Rattle.beam_search.specs.Room.{after_search};
ghost use Rattle.beam_search.specs.Measured.{AreMeasured};

use crate::scratch::Scratch;
use crate::walk::walk_all;
use bin_files::Points;
use graph_rows::Rows;
use near_lists::next_stamp;

/// Searches the graph from the starts for what is near to the query. The scratch holds what is found and visited.
///
/// This is GreedySearch (DiskANN, Algorithm 1) and SEARCH-LAYER (HNSW, Algorithm 2). `beam` is `L` in DiskANN and `ef`
/// in HNSW. Distances are squared, and ties go to the smaller id. No point is visited twice, and no distance is taken
/// twice. It takes no memory and can't fail.
pub fn search<R: Rows>(
    points: &Points,
    graph: &R,
    starts: &[u32],
    query: &[u8],
    beam: u32,
    scratch: &mut Scratch,
)
    requires query { length query.now ≡ dim_of points.now.vectors }
    requires graph { IsGraph (length points.now.vectors) (R.held graph.now) (R.row_of graph.now) }
    requires starts { All (λ u. R.held graph.now u ≡ true) starts.now }
    requires points { scratch.old.count ≡ length points.now.vectors }
    requires beam { beam ≤ scratch.old.beam }
    ensures walk { scratch.new ≡ after_search scratch.old (search_of points.now.vectors (R.row_of graph.now) query.now beam starts.now) }
    ensures visited { AreMeasured points.now.vectors query.now (R.held graph.now) scratch.new.last.visited }
    ensures few { length scratch.new.last.visited ≤ length points.now.vectors }
    ensures found { AreMeasured points.now.vectors query.now (R.held graph.now) scratch.new.last.found }
    ensures rises { Rises near_cmp scratch.new.last.found }
    ensures short { length scratch.new.last.found ≤ beam }
{
    let seen = next_stamp(&mut scratch.marks, scratch.last_stamp);
    let (found_len, visited_len) = walk_all(
        points,
        graph,
        starts,
        query,
        beam as usize,
        &mut scratch.found,
        &mut scratch.visited,
        &mut scratch.marks,
        seen,
        &mut scratch.todo,
    );
    scratch.last_stamp = seen + 1;
    scratch.found_len = found_len;
    scratch.visited_len = visited_len;
}
