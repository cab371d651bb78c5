//! Rows that are pruned anew, of which some ids are known to stay together.
ghost use Rattle.std.specs.Prelude.{◌≡◌, ◌+◌, ◌-◌, ◌<◌, ◌≤◌, true, IfOk, length, take};
ghost use Rattle.std.specs.List.{All, range_with_len};
ghost use Rattle.ann_defs.specs.Graph.{IsGoodRow};
ghost use Rattle.batch_insert.specs.Sources.{sources_in};
ghost use Rattle.robust_prune.specs.Apart.{are_apart};

use ann_defs::{Alpha, Near};
use ann_shelf::NoMemory;
use batch_insert::{Pair, merged_row};
use bin_files::Points;
use near_lists::gather;
use robust_prune::{Pruning, RobustPrune};
use std::alloc::Global;
use std::test::Fail;

// Forty points of two bytes.
fn scattered(alloc: Global) -> Result<Points, NoMemory> {
    let mut bytes = [0u8; 80];
    for i in 0..80usize {
        bytes[i] = (i * i * 37 % 251) as u8;
    }
    Ok(Points::from_bytes(2, bytes.to_vec(alloc)?))
}

// The row that a prune of these ids gives the first point.
fn row_among(pruning: &RobustPrune, ids: &[u32], out: &mut [u32]) -> usize
    requires count { length pruning.now.points.now.vectors ≡ 40 }
    requires ids { All (λ u. u < 40) ids.now }
    requires few { length ids.now ≤ 80 }
    requires out { pruning.now.degree ≤ length out.old }
    ensures bound { result ≤ pruning.now.degree }
    ensures good { IsGoodRow (length pruning.now.points.now.vectors) pruning.now.degree 0 (take result out.new) }
    ensures apart { are_apart pruning.now.points.now.vectors pruning.now.alpha.num pruning.now.alpha.den 0 (take result out.new) ≡ true }
{
    let mut room = [Near { dist: 0, id: 0 }; 80];
    let mut marks = [0u32; 40];
    let len = gather(pruning.points, 0, &[], ids, &mut room, &mut marks, 1);
    pruning.prune(0, &mut room[..len], out)
}

// The row, and the ids from `first` on.
fn with_later(alloc: Global, row: &[u32], first: u32, end: u32) -> Result<Vec<u32>, NoMemory>
    requires row { All (λ u. u < 40) row.now }
    requires first { first ≤ end }
    requires end { end ≤ 40 }
    ensures inside { IfOk result (λ v. All (λ u. u < 40) v.items) }
    ensures few { IfOk result (λ v. length v.items ≤ length row.now + 40) }
{
    let mut ids = row.to_vec(alloc)?;
    for id in first..end {
        ids.push(id)?;
    }
    Ok(ids)
}

// The ids from `first` on as sources of the first point.
fn later_sources(alloc: Global, first: u32) -> Result<Vec<Pair>, NoMemory>
    requires first { first ≤ 40 }
    ensures sources { IfOk result (λ v. sources_in v.items ≡ range_with_len first (40 - first)) }
    ensures few { IfOk result (λ v. length v.items ≤ 40) }
{
    let mut pairs = Vec::new(alloc);
    for source in first..40u32 {
        pairs.push(Pair { target: 0, source })?;
    }
    Ok(pairs)
}

// The row of the first point merged with these sources, where so many of its ids are known to stay together.
fn merged(
    pruning: &RobustPrune,
    row: &[u32],
    settled: usize,
    sources: &[Pair],
    first: u32,
    out: &mut [u32],
) -> usize
    requires count { length pruning.now.points.now.vectors ≡ 40 }
    requires degree { pruning.now.degree ≤ 20 }
    requires row { IsGoodRow (length pruning.now.points.now.vectors) pruning.now.degree 0 row.now }
    requires settled { settled ≤ length row.now }
    requires apart { are_apart pruning.now.points.now.vectors pruning.now.alpha.num pruning.now.alpha.den 0 (take settled row.now) ≡ true }
    requires sources { sources_in sources.now ≡ range_with_len first (40 - first) }
    requires few { length sources.now ≤ 40 }
    requires first { (1 ≤ first) × (first ≤ 40) }
    requires out { pruning.now.degree ≤ length out.old }
    ensures { result ≤ pruning.now.degree }
{
    let mut room = [Near { dist: 0, id: 0 }; 80];
    merged_row(pruning, 0, row, settled, sources, &mut room, out)
}

// Whether a row of the first point, with the later ids as sources, is the same where the row's ids are known to stay
// together, where they are tested again, and as a prune of all of them.
fn agree_at(pruning: &RobustPrune, row: &[u32], sources: &[Pair], first: u32, all: &[u32]) -> bool
    requires count { length pruning.now.points.now.vectors ≡ 40 }
    requires degree { pruning.now.degree ≤ 20 }
    requires row { IsGoodRow (length pruning.now.points.now.vectors) pruning.now.degree 0 row.now }
    requires apart { are_apart pruning.now.points.now.vectors pruning.now.alpha.num pruning.now.alpha.den 0 row.now ≡ true }
    requires sources { sources_in sources.now ≡ range_with_len first (40 - first) }
    requires few { length sources.now ≤ 40 }
    requires first { (1 ≤ first) × (first ≤ 40) }
    requires all { All (λ u. u < 40) all.now }
    requires short { length all.now ≤ 80 }
{
    let mut known = [0u32; 20];
    let mut tested = [0u32; 20];
    let mut plain = [0u32; 20];
    let known_len = merged(pruning, row, row.len(), sources, first, &mut known);
    let tested_len = merged(pruning, row, 0, sources, first, &mut tested);
    let plain_len = row_among(pruning, all, &mut plain);
    let has_room = all.len() <= pruning.degree as usize;
    &known[..known_len] == &tested[..tested_len]
        && (has_room || &known[..known_len] == &plain[..plain_len])
}

// Whether this holds of a row that is pruned of the ids before `first`, with those from it on.
fn agree(
    alloc: Global,
    points: &Points,
    alpha: Alpha,
    degree: u32,
    first: u32,
) -> Result<bool, NoMemory>
    requires count { length points.now.vectors ≡ 40 }
    requires degree { degree ≤ 20 }
    requires first { (1 ≤ first) × (first ≤ 40) }
{
    let pruning = RobustPrune {
        points,
        alpha,
        degree,
    };
    let mut row = [0u32; 20];
    let early = with_later(alloc, &[], 1, first)?;
    let len = row_among(&pruning, early.as_slice(), &mut row);
    let sources = later_sources(alloc, first)?;
    let all = with_later(alloc, &row[..len], first, 40)?;
    Ok(agree_at(
        &pruning,
        &row[..len],
        sources.as_slice(),
        first,
        all.as_slice(),
    ))
}

#[test]
fn a_row_known_to_stay_together_is_pruned_as_any(rt: HostRuntime) -> Result<(), Fail> {
    let points = scattered(rt.alloc())?;
    if points.count() == 40 {
        for first in 1..41u32 {
            for degree in [3u32, 6, 20] {
                for num in [100u32, 120, 250] {
                    let alpha = Alpha { num, den: 100 };
                    assert!(rt; agree(rt.alloc(), &points, alpha, degree, first)?);
                }
            }
        }
    }
    Ok(())
}
