//! 128 points on a line: a build whose last batches have enough tasks for two workers, and 64 queries.
use ann_shelf::{FreeGate, Gate, NoMemory};
use std::alloc::Global;
use std::sync::Wait;
use std::thread::Threads;
use top_calls::{NONE, Outcome, call_at};

/// The first batch whose round both workers take part in: in batches of at most 64, of 128 points the last one has 64.
pub(crate) const LAST: u32 = 8;

/// A file of so many points on a line.
pub(crate) fn line_of(alloc: Global, count: u8) -> Result<Vec<u8>, NoMemory> {
    let mut file = Vec::new(alloc);
    file.extend_from_slice(&u32::from(count).to_le_bytes())?;
    file.extend_from_slice(&1u32.to_le_bytes())?;
    for place in 0..count {
        file.push(place)?;
    }
    Ok(file)
}

/// A build of the points on a line by two workers of this pool.
pub(crate) fn built<R: Threads + Wait + Sync, G: Gate + Sync>(
    rt: &R,
    alloc: Global,
    pool: &str,
    gate: &G,
) -> Result<Outcome, NoMemory> {
    let points = line_of(alloc, 128)?;
    let words = format!(in alloc;
        "build pts ann --order file --start first --degree 2 --beam 4 --alpha 1/1 --cap 64 --workers 2 --pool {pool}"
    )?;
    call_at(
        rt,
        alloc,
        words.as_str(),
        &[("pts", points.as_slice())],
        NONE,
        gate,
    )
}

/// Queries of the points on a line, by two workers of this pool.
pub(crate) fn answered<R: Threads + Wait + Sync, G: Gate + Sync>(
    rt: &R,
    alloc: Global,
    pool: &str,
    gate: &G,
) -> Result<Outcome, NoMemory> {
    let build = built(rt, alloc, "serial", &FreeGate)?;
    let points = line_of(alloc, 128)?;
    let asked = line_of(alloc, 64)?;
    let index = build.shelf.bytes("ann").unwrap_or(&[]);
    let words = format!(in alloc; "query pts ann ask --workers 2 --pool {pool}")?;
    let files = [
        ("pts", points.as_slice()),
        ("ann", index),
        ("ask", asked.as_slice()),
    ];
    call_at(rt, alloc, words.as_str(), &files, NONE, gate)
}
