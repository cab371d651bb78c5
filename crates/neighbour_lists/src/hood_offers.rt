//! Neighbourhoods that are offered.
ghost use Rattle.std.specs.Prelude.{◌≡◌, ◌<◌, ◌++◌, length};
ghost use Rattle.std.specs.List.{All, flat_map};
ghost use Rattle.neighbour_lists.specs.Fresh.{parts, AreHoods};
ghost use Rattle.neighbour_lists.specs.Offering.{IsOffered, HasOffered};

use crate::hoods::Hoods;
use crate::nearest::Nearest;
use bin_files::Points;
use graph_rows::FlatGraph;

/// Offers for the list of `v` what the points of a neighbourhood of `v` have in other neighbourhoods, in both parts. Takes no memory.
pub(crate) fn offer_around(
    points: &Points,
    scratch: &mut Nearest,
    v: u32,
    around: &Hoods,
    rows: &FlatGraph,
    others: &FlatGraph,
)
    requires v { v < length points.now.vectors }
    requires around { AreHoods (length points.now.vectors) around.now.rows.rows around.now.others.rows }
    requires hoods { AreHoods (length points.now.vectors) rows.now.rows others.now.rows }
    requires count { length scratch.old.marks ≡ length points.now.vectors }
    requires offered { IsOffered points.now.vectors v scratch.old }
    ensures { HasOffered points.now.vectors v (flat_map (parts rows.now.rows others.now.rows) (parts around.now.rows.rows around.now.others.rows v)) scratch.old scratch.new }
{
    let (row, back) = parts_of(points, v, &around.rows, &around.others);
    offer_each(points, scratch, v, row, rows, others);
    offer_each(points, scratch, v, back, rows, others);
}

// Both parts of the neighbourhood of u.
fn parts_of<'a>(
    _points: &Points,
    u: u32,
    rows: &'a FlatGraph,
    others: &'a FlatGraph,
) -> (&'a [u32], &'a [u32])
    requires u { u < length _points.now.vectors }
    requires hoods { AreHoods (length _points.now.vectors) rows.now.rows others.now.rows }
    ensures parts { result.0.now ++ result.1.now ≡ parts rows.now.rows others.now.rows u }
    ensures row { All (λ w. w < length _points.now.vectors) result.0.now }
    ensures back { All (λ w. w < length _points.now.vectors) result.1.now }
{
    (rows.at(u), others.at(u))
}

// Offers both parts of the neighbourhood of each of the ids. The rows are read ahead.
fn offer_each(
    points: &Points,
    scratch: &mut Nearest,
    v: u32,
    ids: &[u32],
    rows: &FlatGraph,
    others: &FlatGraph,
)
    requires v { v < length points.now.vectors }
    requires ids { All (λ u. u < length points.now.vectors) ids.now }
    requires hoods { AreHoods (length points.now.vectors) rows.now.rows others.now.rows }
    requires count { length scratch.old.marks ≡ length points.now.vectors }
    requires offered { IsOffered points.now.vectors v scratch.old }
    ensures { HasOffered points.now.vectors v (flat_map (parts rows.now.rows others.now.rows) ids.now) scratch.old scratch.new }
{
    scratch.note(ends_of(rows, ids) ^ ends_of(others, ids));
    for u in ids {
        offer_parts(points, scratch, v, *u, rows, others);
    }
}

// Reads the length and the last id of each of some rows, which lie far apart in memory: these reads don't wait for each other, and the rows are
// near when they are offered. Returns what they add up to.
fn ends_of(rows: &FlatGraph, ids: &[u32]) -> u32
    requires { All (λ u. u < length rows.now.rows) ids.now }
{
    let mut sum = 0u32;
    for u in ids {
        let row = rows.at(*u);
        sum ^= row.len() as u32;
        if !row.is_empty() {
            sum ^= row[row.len() - 1];
        }
    }
    sum
}

// Offers both parts of the neighbourhood of u.
fn offer_parts(
    points: &Points,
    scratch: &mut Nearest,
    v: u32,
    u: u32,
    rows: &FlatGraph,
    others: &FlatGraph,
)
    requires v { v < length points.now.vectors }
    requires u { u < length points.now.vectors }
    requires hoods { AreHoods (length points.now.vectors) rows.now.rows others.now.rows }
    requires count { length scratch.old.marks ≡ length points.now.vectors }
    requires offered { IsOffered points.now.vectors v scratch.old }
    ensures { HasOffered points.now.vectors v (parts rows.now.rows others.now.rows u) scratch.old scratch.new }
{
    let (row, back) = parts_of(points, u, rows, others);
    scratch.offer(points, v, row);
    scratch.offer(points, v, back);
}
