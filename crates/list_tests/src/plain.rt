//! Rounds from scratch, by plain bodies: each list anew, and which points a round must compute.
use ann_defs::Near;
use ann_shelf::NoMemory;
use bin_files::Points;
use lane_distance::dist;
use neighbour_lists::Lists;
use std::alloc::Global;

// The rows of lists.
pub(crate) fn rows_of(alloc: Global, lists: &Lists) -> Result<Vec<Vec<u32>>, NoMemory> {
    let mut rows = Vec::new(alloc);
    for id in 0..lists.count() {
        rows.push(lists.row(id).to_vec(alloc)?)?;
    }
    Ok(rows)
}

// An id with its squared distance to v.
fn near(points: &Points, v: u32, id: u32) -> Near {
    if v < points.count() && id < points.count() {
        let dist = dist(points.at(v), points.at(id));
        Near { dist, id }
    } else {
        Near { dist: u32::MAX, id }
    }
}

// The nearest of the ids to v, without v, at most so many.
fn nearest(
    alloc: Global,
    points: &Points,
    v: u32,
    ids: &[u32],
    list: usize,
) -> Result<Vec<u32>, NoMemory> {
    let mut nears = Vec::new(alloc);
    for id in ids {
        if *id != v {
            nears.push(near(points, v, *id))?;
        }
    }
    nears.sort_unstable();
    nears.dedup();
    let mut row = Vec::new(alloc);
    for x in &nears[..nears.len().min(list)] {
        row.push(x.id)?;
    }
    Ok(row)
}

// For each id those whose rows hold it.
fn sources_of(alloc: Global, rows: &[Vec<u32>]) -> Result<Vec<Vec<u32>>, NoMemory> {
    let mut sources = Vec::new(alloc);
    for _ in rows {
        sources.push(Vec::new(alloc))?;
    }
    let mut u = 0u32;
    for row in rows {
        for v in row {
            if let Some(to_v) = sources.get_mut(*v as usize) {
                to_v.push(u)?;
            }
        }
        u = u.wrapping_add(1);
    }
    Ok(sources)
}

// For each id its neighbourhood, ascending: its row, and the nearest of those whose rows hold it.
pub(crate) fn arounds(
    alloc: Global,
    points: &Points,
    rows: &[Vec<u32>],
    list: usize,
) -> Result<Vec<Vec<u32>>, NoMemory> {
    let sources = sources_of(alloc, rows)?;
    let mut all = Vec::new(alloc);
    let mut v = 0u32;
    for row in rows {
        let to_v = row_at(&sources, v);
        let mut around = nearest(alloc, points, v, to_v, list)?;
        for u in row {
            around.push(*u)?;
        }
        around.sort_unstable();
        around.dedup();
        all.push(around)?;
        v = v.wrapping_add(1);
    }
    Ok(all)
}

// The row with this number, or none.
fn row_at(rows: &[Vec<u32>], id: u32) -> &[u32] {
    match rows.get(id as usize) {
        Some(row) => row.as_slice(),
        None => &[],
    }
}

// The rows after a round, all computed.
pub(crate) fn next_rows(
    alloc: Global,
    points: &Points,
    rows: &[Vec<u32>],
    arounds: &[Vec<u32>],
    list: usize,
) -> Result<Vec<Vec<u32>>, NoMemory> {
    let mut next = Vec::new(alloc);
    let mut v = 0u32;
    for row in rows {
        let mut reached = row.as_slice().to_vec(alloc)?;
        for u in row_at(arounds, v) {
            for w in row_at(arounds, *u) {
                reached.push(*w)?;
            }
        }
        next.push(nearest(alloc, points, v, &reached, list)?)?;
        v = v.wrapping_add(1);
    }
    Ok(next)
}

// How many ids the new rows have that the old ones hadn't.
pub(crate) fn changed(old: &[Vec<u32>], new: &[Vec<u32>]) -> u64 {
    let mut changed = 0u64;
    let mut v = 0u32;
    for row in new {
        for u in row {
            if !row_at(old, v).contains(u) {
                changed = changed.saturating_add(1);
            }
        }
        v = v.wrapping_add(1);
    }
    changed
}

// Rows with their neighbourhoods.
#[derive(Clone, Copy)]
pub(crate) struct Seen<'a> {
    pub rows: &'a [Vec<u32>],
    pub arounds: &'a [Vec<u32>],
}

// Whether a point's row, its neighbourhood and those of its neighbours stayed as they were.
fn is_settled(old: Seen, new: Seen, v: u32) -> bool {
    if row_at(old.rows, v) != row_at(new.rows, v) {
        return false;
    }
    if row_at(old.arounds, v) != row_at(new.arounds, v) {
        return false;
    }
    for u in row_at(old.arounds, v) {
        if row_at(old.arounds, *u) != row_at(new.arounds, *u) {
            return false;
        }
    }
    true
}

// How many points the round after one that led from old to new computes.
pub(crate) fn active(old: Seen, new: Seen) -> u64 {
    let mut active = 0u64;
    let mut v = 0u32;
    for _ in new.rows {
        if !is_settled(old, new, v) {
            active = active.saturating_add(1);
        }
        v = v.wrapping_add(1);
    }
    active
}
