//! The loop of a search: the nearest that was found and not visited is visited, while there is one.
ghost use Rattle.std.specs.Prelude.{◌≡◌, ◌≢◌, ℕ, true, ◌+◌, ◌-◌, ◌^◌, ◌<◌, ◌≤◌, length, take};
ghost use Rattle.std.specs.List.{All, AllWithin, HoldsAt};
ghost use Rattle.ann_defs.specs.Distance.{dim_of};
ghost use Rattle.ann_defs.specs.Graph.{IsGraph};
ghost use Rattle.ann_defs.specs.GreedySearch.{search_of, walk_in};
ghost use Rattle.near_lists.specs.Marks.{mark_of, AreUpTo};

use ann_defs::Near;
use bin_files::Points;
use graph_rows::Rows;
use near_lists::offer_unseen;

/// Searches the graph over two slices: the search list stands at the front of `found`, in order, and the visited at the
/// front of `visited`. Returns how many were found and how many were visited.
///
/// A mark is `seen` once the id was offered, and the stamp after it once the id is visited. `next` is the place of the
/// first entry that isn't visited: where the row of a visited point puts an entry before it, it falls to that place.
pub fn walk_all<R: Rows>(
    points: &Points,
    graph: &R,
    starts: &[u32],
    query: &[u8],
    beam: usize,
    found: &mut [Near],
    visited: &mut [Near],
    marks: &mut [u32],
    seen: u32,
    todo: &mut [u32],
) -> (usize, usize)
    requires query { length query.now ≡ dim_of points.now.vectors }
    requires graph { IsGraph (length points.now.vectors) (R.held graph.now) (R.row_of graph.now) }
    requires starts { All (λ u. R.held graph.now u ≡ true) starts.now }
    requires found { beam ≤ length found.old }
    requires visited { length visited.old ≡ length points.now.vectors }
    requires marks { length marks.old ≡ length points.now.vectors }
    requires some { 1 ≤ seen }
    requires stamps { seen + 1 < 2 ^ 32 }
    requires later { AreUpTo (seen - 1) marks.old }
    requires todo { 1 ≤ length todo.old }
    ensures walk { walk_in found.new result.0 visited.new result.1 ≡
        search_of points.now.vectors (R.row_of graph.now) query.now beam starts.now }
    ensures found { result.0 ≤ beam }
    ensures visited { result.1 ≤ length points.now.vectors }
    ensures marks { AreUpTo (seen + 1) marks.new }
{
    let (kept, _) = offer_unseen(points, query, starts, found, 0, beam, marks, seen, todo);
    let mut len = kept;
    let mut count: usize = 0;
    let mut next: usize = 0;
    while next < len {
        let p = found[next];
        marks[p.id as usize] = seen + 1;
        let row = graph.row(p.id);
        let (kept, first) = offer_unseen(points, query, row, found, len, beam, marks, seen, todo);
        visited[count] = p;
        count += 1;
        len = kept;
        next = first_left(&found[..len], marks, seen + 1, first.min(next + 1));
    }
    (len, count)
}

// The place of the first entry from `from` on whose id isn't marked with this stamp, or the length.
fn first_left(list: &[Near], marks: &[u32], visited: u32, from: usize) -> usize
    requires ids { All (λ x. x.id < length marks.now) list.now }
    requires from { from ≤ length list.now }
    ensures range { (from ≤ result) × (result ≤ length list.now) }
    ensures before { AllWithin (λ x. mark_of marks.now x.id ≡ visited) list.now from result }
    ensures here { result < length list.now → HoldsAt (λ x. mark_of marks.now x.id ≢ visited) list.now result }
{
    for i in from..list.len() {
        if marks[list[i].id as usize] != visited {
            return i;
        }
    }
    list.len()
}
