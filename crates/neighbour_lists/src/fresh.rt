//! What is new in rows, and what isn't.
ghost use Rattle.std.specs.Prelude.{◌≡◌, ◌++◌, ◌≤◌, IfOk, length, map, not, take};
ghost use Rattle.std.specs.List.{filter, range_with_len};
ghost use Rattle.ann_defs.specs.Graph.{has};
ghost use Rattle.neighbour_lists.specs.Fresh.{row_without, AreWithout};

use crate::hoods::Hoods;
use ann_defs::MAX_DEGREE;
use ann_shelf::NoMemory;
use graph_rows::FlatGraph;
use std::alloc::Global;

/// What is in neighbourhoods, given in two parts, and not in those that were seen. Memory: as much as the neighbourhoods.
pub(crate) fn hoods_without(
    alloc: Global,
    rows: &FlatGraph,
    others: &FlatGraph,
    seen: &Hoods,
) -> Result<Hoods, NoMemory>
    requires { (length others.now.rows ≡ length rows.now.rows) × (length seen.now.rows.rows ≡ length rows.now.rows) × (length seen.now.others.rows ≡ length rows.now.rows) }
    ensures { IfOk result (λ h. AreWithout (length rows.now.rows) seen.now.rows.rows seen.now.others.rows rows.now.rows others.now.rows h.rows.rows h.others.rows) }
{
    let fresh = rows_without(alloc, rows, seen)?;
    let fresh_others = rows_without(alloc, others, seen)?;
    Ok(Hoods {
        rows: fresh,
        others: fresh_others,
    })
}

// The ids of each row that the neighbourhood of its point doesn't have, in their order.
fn rows_without(alloc: Global, rows: &FlatGraph, seen: &Hoods) -> Result<FlatGraph, NoMemory>
    requires seen { length seen.now.rows.rows ≡ length rows.now.rows }
    requires others { length seen.now.others.rows ≡ length rows.now.rows }
    ensures rows { IfOk result (λ g. g.rows ≡ map (row_without seen.now.rows.rows seen.now.others.rows rows.now.rows) (range_with_len 0 (length rows.now.rows))) }
{
    let mut kept = rows.copy(alloc)?;
    let mut room = [0u32; MAX_DEGREE as usize];
    for u in 0..rows.count() {
        let len = write_without(seen.rows.at(u), seen.others.at(u), rows.at(u), &mut room);
        kept.set_row(u, &room[..len]);
    }
    Ok(kept)
}

// Writes the ids of a row that neither part has to the front of the room, and returns how many they are.
fn write_without(part: &[u32], other: &[u32], row: &[u32], room: &mut [u32]) -> usize
    requires { length row.now ≤ length room.old }
    ensures ids { take result room.new ≡ filter (λ w. not (has (part.now ++ other.now) w)) row.now }
    ensures bound { result ≤ length row.now }
    ensures len { length room.new ≡ length room.old }
{
    let mut len = 0;
    for id in row {
        if !has_either(part, other, *id) {
            room[len] = *id;
            len += 1;
        }
    }
    len
}

// Whether an id is in one of two parts.
fn has_either(part: &[u32], other: &[u32], id: u32) -> bool
    ensures { result ≡ has (part.now ++ other.now) id }
{
    part.contains(&id) || other.contains(&id)
}
