//! Which points are active after a round.
ghost use Rattle.std.specs.Prelude.{◌≡◌, ℕ, ◌<◌, ◌++◌, true, false, length, replicate, slice_index_or};
ghost use Rattle.std.specs.List.{All};
ghost use Rattle.ann_defs.specs.Graph.{has, row_in};
ghost use Rattle.ann_defs.specs.Laws.{AreAlike};
ghost use Rattle.neighbour_lists.specs.declared.edge.Edge.{Edge};
ghost use Rattle.neighbour_lists.specs.Reversed.{edge_ids};
ghost use Rattle.neighbour_lists.specs.Settled.{around_in, IsStill};

use crate::around::{are_alike, are_same_rows};
use crate::state::{Around, State};

/// Raises all flags.
pub(crate) fn raise_all(flags: &mut [bool])
    ensures { flags.new ≡ replicate (length flags.old) true }
{
    flags.fill(true);
}

// Marks the points whose neighbourhood changed.
fn mark_moved(moved: &mut [bool], old: &State, new: &State, list: u32)
    requires old { length old.now.rows.now.rows ≡ length moved.old }
    requires new { length new.now.rows.now.rows ≡ length moved.old }
    ensures { (u : ℕ) → u < length moved.old → slice_index_or moved.new u false ≡ false → AreAlike (around_in list new.now.rows.now.rows new.now.edges.now u) (around_in list old.now.rows.now.rows old.now.edges.now u) }
{
    for v in 0..new.rows.count() {
        moved[v as usize] = !are_alike(&new.around(list, v), &old.around(list, v));
    }
}

// Whether no id of a neighbourhood is marked.
fn are_unmoved(moved: &[bool], around: &Around) -> bool
    requires row { All (λ u. u < length moved.now) around.now.row.now }
    requires sources { All (λ u. u < length moved.now) (edge_ids around.now.edges.now) }
    ensures { result ≡ true → (u : ℕ) → has (around.now.row.now ++ edge_ids around.now.edges.now) u ≡ true → slice_index_or moved.now u false ≡ false }
{
    for id in around.row {
        if moved[*id as usize] {
            return false;
        }
    }
    for edge in around.edges {
        if moved[edge.source.id as usize] {
            return false;
        }
    }
    true
}

// Whether a point is settled: its list is the same, and its neighbourhood and those of its neighbours are unmarked.
fn is_still(moved: &[bool], old: &State, new: &State, list: u32, v: u32) -> bool
    requires v { v < length moved.now }
    requires old { length old.now.rows.now.rows ≡ length moved.now }
    requires new { length new.now.rows.now.rows ≡ length moved.now }
    requires rows { All (λ u. u < length moved.now) (row_in old.now.rows.now.rows v) }
    requires sources { All (λ (e : Edge). e.source.id < length moved.now) old.now.edges.now }
    requires marks { (u : ℕ) → u < length moved.now → slice_index_or moved.now u false ≡ false → AreAlike (around_in list new.now.rows.now.rows new.now.edges.now u) (around_in list old.now.rows.now.rows old.now.edges.now u) }
    ensures { result ≡ true → IsStill list old.now.rows.now.rows old.now.edges.now new.now.rows.now.rows new.now.edges.now v }
{
    if !are_same_rows(new.rows.at(v), old.rows.at(v)) {
        return false;
    }
    if moved[v as usize] {
        return false;
    }
    are_unmoved(moved, &old.around(list, v))
}

/// Lowers the flag of each point that is settled between two states of the lists, and raises all others.
///
/// `moved` is room for a flag for each point, whatever it holds. A point is settled where its list, its neighbourhood, and the neighbourhoods
/// of its neighbours are the same. Takes no memory.
pub(crate) fn set_flags(
    active: &mut [bool],
    moved: &mut [bool],
    old: &State,
    new: &State,
    list: u32,
)
    requires moved { length moved.old ≡ length active.old }
    requires old { length old.now.rows.now.rows ≡ length active.old }
    requires new { length new.now.rows.now.rows ≡ length active.old }
    requires rows { (v : ℕ) → v < length active.old → All (λ u. u < length active.old) (row_in old.now.rows.now.rows v) }
    requires sources { All (λ (e : Edge). e.source.id < length active.old) old.now.edges.now }
    ensures { (v : ℕ) → v < length active.old → slice_index_or active.new v false ≡ false → IsStill list old.now.rows.now.rows old.now.edges.now new.now.rows.now.rows new.now.edges.now v }
{
    mark_moved(moved, old, new, list);
    for v in 0..new.rows.count() {
        active[v as usize] = !is_still(moved, old, new, list, v);
    }
}
