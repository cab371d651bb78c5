//! The walk down through the layers above the first.
ghost use Rattle.std.specs.Prelude.{◌≡◌, ℕ, ◌<◌, ◌≤◌, [], ◌∷◌, true, length};
ghost use Rattle.ann_defs.specs.Distance.{dim_of};
ghost use Rattle.ann_defs.specs.Graph.{has, IsGraph};
ghost use Rattle.ann_defs.specs.GreedySearch.{found_of};
ghost use Rattle.ann_defs.specs.Nearness.{ids_of};
ghost use Rattle.beam_search.specs.Serving.{Serves};
ghost use Rattle.graph_rows.specs.Index.{layer_ids};
ghost use Rattle.graph_rows.specs.Layers.{layer_row};
ghost use Rattle.layered_search.specs.Entering.{AreEnterable, holds_at, upper_row};
ghost use Rattle.layered_search.specs.KnnSearch.{entries_down};

use beam_search::{Scratch, found, search};
use bin_files::Points;
use graph_rows::Layer;

/// The id at which a search enters layer `to`, where the layers above it are searched one after another from the top,
/// each with beam 1 and from what was found in the one before, and the first of them from the start.
///
/// `upper` are the layers from layer 1 on. With `to` the number of the top layer, the entry is the start. This is the
/// first loop of K-NN-SEARCH (HNSW, Algorithm 5) and of INSERT (Algorithm 1). It takes no memory and refuses nothing.
pub fn enter(
    points: &Points,
    upper: &[Layer],
    to: usize,
    start: u32,
    query: &[u8],
    scratch: &mut Scratch,
) -> u32
    requires query { length query.now ≡ dim_of points.now.vectors }
    requires layers { AreEnterable (length points.now.vectors) start upper.now }
    requires to { to ≤ length upper.now }
    requires serves { Serves (length points.now.vectors) 1 scratch.old }
    ensures entry { result ∷ [] ≡ entries_down points.now.vectors (upper_row upper.now) query.now 1 (start ∷ []) (length upper.now) to }
    ensures below { result < length points.now.vectors }
    ensures held { (k : ℕ) → k < to → holds_at upper.now k result ≡ true }
    ensures count { scratch.new.count ≡ scratch.old.count }
    ensures beam { scratch.new.beam ≡ scratch.old.beam }
{
    let mut entry = start;
    let mut layer = upper.len();
    while layer > to {
        layer -= 1;
        entry = nearest(points, &upper[layer], entry, query, scratch);
    }
    entry
}

// The nearest that a search with beam 1 finds in a layer.
fn nearest(points: &Points, layer: &Layer, entry: u32, query: &[u8], scratch: &mut Scratch) -> u32
    requires query { length query.now ≡ dim_of points.now.vectors }
    requires graph { IsGraph (length points.now.vectors) (λ u. has (layer_ids layer.now.entries) u) (layer_row layer.now) }
    requires entry { has (layer_ids layer.now.entries) entry ≡ true }
    requires serves { Serves (length points.now.vectors) 1 scratch.old }
    ensures found { result ∷ [] ≡ ids_of (found_of points.now.vectors (layer_row layer.now) query.now 1 (entry ∷ [])) }
    ensures held { has (layer_ids layer.now.entries) result ≡ true }
    ensures count { scratch.new.count ≡ scratch.old.count }
    ensures beam { scratch.new.beam ≡ scratch.old.beam }
{
    search(points, layer, &[entry], query, 1, scratch);
    found(scratch)[0].id
}
