//! The point nearest to the centroid.
ghost use Rattle.std.specs.Prelude.{◌≡◌, ℕ, ◌+◌, ◌*◌, ◌<◌, ◌≤◌, IfOk, length, slice_index};
ghost use Rattle.std.specs.List.{sum_by, range_with_len};
ghost use Rattle.ann_defs.specs.Distance.{squared_gap, dim_of};
ghost use Rattle.seeded_order.specs.Medoid.{column_sum, medoid_of};

use ann_defs::{MAX_DIM, MAX_POINTS};
use ann_shelf::NoMemory;
use bin_files::Points;
use std::alloc::Global;

// Adds a point to the sums of the columns.
fn add_point(sums: &mut [u64], point: &[u8], count: u32)
    requires alike { length sums.old ≡ length point.now }
    requires few { (j : ℕ) → j < length sums.old → slice_index sums.old j ≤ 255 * count }
    ensures sums { (j : ℕ) → j < length sums.old → slice_index sums.new j ≡ slice_index sums.old j + slice_index point.now j }
    ensures few { (j : ℕ) → j < length sums.old → slice_index sums.new j ≤ 255 * (count + 1) }
{
    for j in 0..sums.len() {
        sums[j] += u64::from(point[j]);
    }
}

// The sum of each column.
fn column_sums(alloc: Global, points: &Points) -> Result<Vec<u64>, NoMemory>
    ensures count { IfOk result (λ v. length v.items ≡ dim_of points.now.vectors) }
    ensures sums { IfOk result (λ v. (j : ℕ) → j < dim_of points.now.vectors → slice_index v.items j ≡ column_sum points.now.vectors j) }
    ensures few { IfOk result (λ v. (j : ℕ) → j < dim_of points.now.vectors → slice_index v.items j ≤ 1069547520) }
{
    let mut sums = vec![in alloc; 0u64; points.dim() as usize]?;
    for u in 0..points.count() {
        add_point(sums.as_mut_slice(), points.at(u), u);
    }
    Ok(sums)
}

// The squared difference of n times a byte and the sum of its column.
fn column_gap(n: u32, byte: u8, sum: u64) -> u64
    requires n { n ≤ MAX_POINTS }
    requires sum { sum ≤ 1069547520 }
    ensures value { result ≡ squared_gap (n * byte) sum }
    ensures bound { result ≤ 1152921504606846976 }
{
    let gap = (u64::from(n) * u64::from(byte)).abs_diff(sum);
    gap * gap
}

// The squared distance of n times a point to the sums of the columns.
fn spread_of(sums: &[u64], point: &[u8], n: u32) -> u128
    requires alike { length sums.now ≡ length point.now }
    requires short { length point.now ≤ MAX_DIM }
    requires few { (j : ℕ) → j < length sums.now → slice_index sums.now j ≤ 1069547520 }
    requires n { n ≤ MAX_POINTS }
    ensures { result ≡ sum_by (λ j. squared_gap (n * slice_index point.now j) (slice_index sums.now j)) (range_with_len 0 (length point.now)) }
{
    let mut total: u128 = 0;
    for j in 0..point.len() {
        total += u128::from(column_gap(n, point[j], sums[j]));
    }
    total
}

/// The point with the least squared distance to the centroid, where DiskANN starts its searches. Ties go to the smaller
/// id.
///
/// The distances are taken times the square of the count, in whole numbers of at most 71 bits, so nothing is rounded.
/// Two passes over the points. Memory: eight bytes for each column.
pub fn medoid(alloc: Global, points: &Points) -> Result<u32, NoMemory>
    ensures value { IfOk result (λ id. id ≡ medoid_of points.now.vectors) }
    ensures bound { IfOk result (λ id. id < length points.now.vectors) }
{
    let n = points.count();
    let sums = column_sums(alloc, points)?;
    let mut best = 0;
    let mut least = spread_of(sums.as_slice(), points.at(0), n);
    for u in 1..n {
        let spread = spread_of(sums.as_slice(), points.at(u), n);
        if spread < least {
            best = u;
            least = spread;
        }
    }
    Ok(best)
}
