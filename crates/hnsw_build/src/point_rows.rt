//! The new rows of a point.
ghost use Rattle.std.specs.Prelude.{◌≡◌, ◌+◌, ◌*◌, ◌<◌, ◌≤◌, true, length, nat_eq, take};
ghost use Rattle.std.specs.List.{All, IsDistinct};
ghost use Rattle.ann_defs.specs.Distance.{dim_of, point};
ghost use Rattle.ann_defs.specs.Graph.{without};
ghost use Rattle.ann_defs.specs.GreedySearch.{found_of};
ghost use Rattle.ann_defs.specs.Nearness.{near_of, ids_of};
ghost use Rattle.ann_defs.specs.RobustPrune.{pruned_row};
ghost use Rattle.batch_insert.specs.Padded.{padded};
ghost use Rattle.beam_search.specs.Measured.{AreMeasured};
ghost use Rattle.beam_search.specs.Serving.{Serves};
ghost use Rattle.hnsw_build.specs.Layering.{level_in, top_of, is_in};
ghost use Rattle.hnsw_build.specs.LayeredInsert.{row_of_layer};
ghost use Rattle.hnsw_build.specs.Grown.{build_in, layers_in, ServesIn};
ghost use Rattle.hnsw_build.specs.Wanted.{rows_of_point};

use crate::layers::Layers;
use crate::plan::HnswPlan;
use ann_defs::{Alpha, MAX_BEAM};
use batch_insert::seal;
use beam_search::{Scratch, found, found_candidates, search};
use layered_search::enter;
use robust_prune::prune;

/// Writes the new rows of point `p` in the layers from 0 up to its level, each as a block.
///
/// The layers above the level are walked down with beam 1, and the others with the beam of the settings: what is found
/// in one are the entries into the one below, and its nearest, pruned, are the new row (HNSW, Algorithm 1).
pub(crate) fn write_rows(layers: &Layers, p: u32, scratch: &mut Scratch, out: &mut [u32])
    requires p { p < length layers.now.plan.now.points.now.vectors }
    requires serves { ServesIn layers.now scratch.old }
    requires out { length out.old ≡ (level_in layers.now.plan.now.levels.items p + 1) * (layers.now.plan.now.settings.degree + 1) }
    ensures out { out.new ≡ rows_of_point (build_in layers.now) (layers_in layers.now) p }
    ensures serves { ServesIn layers.now scratch.new }
{
    let plan = layers.plan;
    let query = plan.points.at(p);
    let level = usize::from(plan.levels[p as usize]);
    let size = plan.settings.degree as usize + 1;
    let mut entries = [0u32; MAX_BEAM as usize];
    entries[0] = enter(
        plan.points,
        layers.upper,
        level,
        plan.start(),
        query,
        scratch,
    );
    let mut count = 1;
    let mut layer = level + 1;
    while layer > 0 {
        layer -= 1;
        search_layer(layers, layer, &entries[..count], query, scratch);
        count = copy_found(scratch, &mut entries);
        write_row(
            plan,
            p,
            scratch,
            &mut out[layer * size..layer * size + size],
        );
    }
}

// Searches a layer from the entries, with the beam of the settings.
fn search_layer(layers: &Layers, layer: usize, entries: &[u32], query: &[u8], scratch: &mut Scratch)
    requires layer { layer ≤ top_of layers.now.plan.now.levels.items }
    requires entries { All (λ u. is_in layers.now.plan.now.levels.items layer u ≡ true) entries.now }
    requires query { length query.now ≡ dim_of layers.now.plan.now.points.now.vectors }
    requires serves { ServesIn layers.now scratch.old }
    ensures found { scratch.new.last.found ≡ found_of layers.now.plan.now.points.now.vectors (row_of_layer (layers_in layers.now) layer) query.now layers.now.plan.now.settings.beam entries.now }
    ensures measured { AreMeasured layers.now.plan.now.points.now.vectors query.now (is_in layers.now.plan.now.levels.items layer) scratch.new.last.found }
    ensures short { length scratch.new.last.found ≤ layers.now.plan.now.settings.beam }
    ensures serves { ServesIn layers.now scratch.new }
{
    let points = layers.plan.points;
    let beam = layers.plan.settings.beam;
    if layer == 0 {
        search(points, layers.base, entries, query, beam, scratch);
    } else {
        search(
            points,
            &layers.upper[layer - 1],
            entries,
            query,
            beam,
            scratch,
        );
    }
}

// Copies the ids that were found to the front of `out`. The result is how many they are.
fn copy_found(scratch: &Scratch, out: &mut [u32]) -> usize
    requires { length scratch.now.last.found ≤ length out.old }
    ensures ids { take result out.new ≡ ids_of scratch.now.last.found }
    ensures count { result ≡ length scratch.now.last.found }
{
    let nears = found(scratch);
    for i in 0..nears.len() {
        out[i] = nears[i].id;
    }
    nears.len()
}

// Writes the row that is pruned from what the last search found, as a block.
fn write_row(plan: &HnswPlan, p: u32, scratch: &mut Scratch, out: &mut [u32])
    requires p { p < length plan.now.points.now.vectors }
    requires serves { Serves (length plan.now.points.now.vectors) plan.now.settings.beam scratch.old }
    requires in_range { All (λ x. x.id < length plan.now.points.now.vectors) scratch.old.last.found }
    requires near { All (λ x. x ≡ near_of plan.now.points.now.vectors (point plan.now.points.now.vectors p) x.id) scratch.old.last.found }
    requires distinct { IsDistinct nat_eq (ids_of scratch.old.last.found) }
    requires out { length out.old ≡ plan.now.settings.degree + 1 }
    ensures out { out.new ≡ padded (plan.now.settings.degree + 1) (pruned_row plan.now.points.now.vectors p (without p (ids_of scratch.old.last.found)) 1 1 plan.now.settings.degree) }
    ensures serves { Serves (length plan.now.points.now.vectors) plan.now.settings.beam scratch.new }
{
    let len = prune_found(plan, p, scratch, &mut out[1..]);
    seal(out, len);
}

// Prunes what the last search found, without p.
fn prune_found(plan: &HnswPlan, p: u32, scratch: &mut Scratch, out: &mut [u32]) -> usize
    requires p { p < length plan.now.points.now.vectors }
    requires serves { Serves (length plan.now.points.now.vectors) plan.now.settings.beam scratch.old }
    requires in_range { All (λ x. x.id < length plan.now.points.now.vectors) scratch.old.last.found }
    requires near { All (λ x. x ≡ near_of plan.now.points.now.vectors (point plan.now.points.now.vectors p) x.id) scratch.old.last.found }
    requires distinct { IsDistinct nat_eq (ids_of scratch.old.last.found) }
    requires out { plan.now.settings.degree ≤ length out.old }
    ensures row { take result out.new ≡ pruned_row plan.now.points.now.vectors p (without p (ids_of scratch.old.last.found)) 1 1 plan.now.settings.degree }
    ensures bound { result ≤ plan.now.settings.degree }
    ensures serves { Serves (length plan.now.points.now.vectors) plan.now.settings.beam scratch.new }
{
    let nears = found_candidates(scratch, plan.points, p, &[]);
    prune(
        plan.points,
        p,
        nears,
        Alpha { num: 1, den: 1 },
        plan.settings.degree,
        out,
    )
}
