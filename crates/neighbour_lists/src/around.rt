//! Neighbourhoods as sets.
ghost use Rattle.std.specs.Prelude.{◌≡◌, ℕ, ◌++◌, true};
ghost use Rattle.ann_defs.specs.Graph.{has};
ghost use Rattle.ann_defs.specs.Laws.{AreAlike};
ghost use Rattle.neighbour_lists.specs.Reversed.{edge_ids};

use crate::edge::Edge;
use crate::state::Around;

// Whether an id is a source.
fn is_source(edges: &[Edge], id: u32) -> bool
    ensures { result ≡ has (edge_ids edges.now) id }
{
    for edge in edges {
        if edge.source.id == id {
            return true;
        }
    }
    false
}

// Whether an id is in a neighbourhood.
fn is_in(around: &Around, id: u32) -> bool
    ensures { result ≡ has (around.now.row.now ++ edge_ids around.now.edges.now) id }
{
    around.row.contains(&id) || is_source(around.edges, id)
}

// Whether each id of a list is in a neighbourhood.
fn has_row(around: &Around, row: &[u32]) -> bool
    ensures { result ≡ true → (u : ℕ) → has row.now u ≡ true → has (around.now.row.now ++ edge_ids around.now.edges.now) u ≡ true }
{
    for id in row {
        if !is_in(around, *id) {
            return false;
        }
    }
    true
}

// Whether each source is in a neighbourhood.
fn has_sources(around: &Around, edges: &[Edge]) -> bool
    ensures { result ≡ true → (u : ℕ) → has (edge_ids edges.now) u ≡ true → has (around.now.row.now ++ edge_ids around.now.edges.now) u ≡ true }
{
    for edge in edges {
        if !is_in(around, edge.source.id) {
            return false;
        }
    }
    true
}

// Whether a neighbourhood has all of another one.
fn has_all(around: &Around, other: &Around) -> bool
    ensures { result ≡ true → (u : ℕ) → has (other.now.row.now ++ edge_ids other.now.edges.now) u ≡ true → has (around.now.row.now ++ edge_ids around.now.edges.now) u ≡ true }
{
    has_row(around, other.row) && has_sources(around, other.edges)
}

// Whether two lists of edges have the same sources, one by one.
fn are_same_sources(edges: &[Edge], others: &[Edge]) -> bool
    ensures { result ≡ true → edge_ids edges.now ≡ edge_ids others.now }
{
    if edges.len() != others.len() {
        return false;
    }
    for i in 0..edges.len() {
        if edges[i].source.id != others[i].source.id {
            return false;
        }
    }
    true
}

/// Whether two lists are the same.
pub(crate) fn are_same_rows(row: &[u32], other: &[u32]) -> bool
    ensures { result ≡ true → row.now ≡ other.now }
{
    row == other
}

// Whether two neighbourhoods have the same list, and the same reverse neighbours.
fn are_same(around: &Around, other: &Around) -> bool
    ensures { result ≡ true → AreAlike (around.now.row.now ++ edge_ids around.now.edges.now) (other.now.row.now ++ edge_ids other.now.edges.now) }
{
    are_same_rows(around.row, other.row) && are_same_sources(around.edges, other.edges)
}

/// Whether two neighbourhoods are the same set.
///
/// Most are the same id by id, which is tried first.
pub(crate) fn are_alike(around: &Around, other: &Around) -> bool
    ensures { result ≡ true → AreAlike (around.now.row.now ++ edge_ids around.now.edges.now) (other.now.row.now ++ edge_ids other.now.edges.now) }
{
    if are_same(around, other) {
        return true;
    }
    has_all(around, other) && has_all(other, around)
}
