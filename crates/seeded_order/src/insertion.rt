//! The order in which points are inserted.
ghost use Rattle.std.specs.Prelude.{◌≡◌, ◌<◌, ◌≤◌, ◌==◌, IfOk, count_by, length, map, nat_eq};
ghost use Rattle.std.specs.List.{All, IsDistinct, range_with_len};
ghost use Rattle.seeded_order.specs.Order.{base_order, file_order_of, insertion_order, seeded_order_of, to_front};
ghost use Rattle.seeded_order.specs.Words.{word_of};

use crate::centroid::medoid;
use crate::words::words_from;
use ann_defs::{MAX_POINTS, OrderKind, StartKind};
use ann_shelf::NoMemory;
use bin_files::Points;
use rand_core::utils::NextWord;
use std::alloc::Global;

/// All ids below n, ascending.
///
/// Memory: four bytes for each id.
pub fn file_order(alloc: Global, n: u32) -> Result<Vec<u32>, NoMemory>
    requires { (1 ≤ n) × (n ≤ MAX_POINTS) }
    ensures { IfOk result (λ v. v.items ≡ file_order_of n) }
{
    let mut ids = Vec::with_capacity(alloc, n as usize)?;
    for id in 0..n {
        ids.push(id)?;
    }
    Ok(ids)
}

// Each id with its word.
fn keyed_ids(alloc: Global, n: u32, seed: u64) -> Result<Vec<(u64, u32)>, NoMemory>
    requires { (1 ≤ n) × (n ≤ MAX_POINTS) }
    ensures { IfOk result (λ v. v.items ≡ map (λ id. (word_of seed 1 id, id)) (range_with_len 0 n)) }
{
    let mut words = words_from(seed, 1, 0);
    let mut keys = Vec::with_capacity(alloc, n as usize)?;
    for id in 0..n {
        keys.push((words.next_word(), id))?;
    }
    Ok(keys)
}

// The ids without their words.
fn ids_in(alloc: Global, keys: &[(u64, u32)]) -> Result<Vec<u32>, NoMemory>
    ensures { IfOk result (λ v. v.items ≡ map (λ key. key.1) keys.now) }
{
    let mut ids = Vec::with_capacity(alloc, keys.len())?;
    for key in keys {
        ids.push(key.1)?;
    }
    Ok(ids)
}

/// All ids below n by their words of stream 1. Ties go to the smaller id.
///
/// It stands for the random permutation in which DiskANN (Algorithm 3) inserts its points, and the seed alone decides
/// it. Memory: twenty bytes for each id, of which four are kept.
pub fn order(alloc: Global, n: u32, seed: u64) -> Result<Vec<u32>, NoMemory>
    requires { (1 ≤ n) × (n ≤ MAX_POINTS) }
    ensures { IfOk result (λ v. v.items ≡ seeded_order_of n seed) }
{
    let mut keys = keyed_ids(alloc, n, seed)?;
    keys.sort_unstable();
    ids_in(alloc, keys.as_slice())
}

/// Moves an id that stands in the list once to the front; all others keep their order.
///
/// One pass up to where the id stood.
pub fn first_to_front(list: &mut [u32], id: u32)
    requires { count_by (λ x. x == id) list.old ≡ 1 }
    ensures { list.new ≡ to_front id list.old }
{
    let mut carry = id;
    for i in 0..list.len() {
        let here = list[i];
        list[i] = carry;
        if here == id {
            return;
        }
        carry = here;
    }
}

// The order before the start is chosen.
fn ids_by(alloc: Global, n: u32, kind: OrderKind, seed: u64) -> Result<Vec<u32>, NoMemory>
    requires { (1 ≤ n) × (n ≤ MAX_POINTS) }
    ensures { IfOk result (λ v. v.items ≡ base_order kind n seed) }
{
    match kind {
        OrderKind::File => file_order(alloc, n),
        OrderKind::Seeded => order(alloc, n, seed),
    }
}

/// The order in which a build inserts its points. The point at which its searches start comes first.
///
/// After DiskANN, whose searches start at the medoid. Memory: that of [`order`], and for
/// the medoid that of [`medoid`].
pub fn insertion_order_of(
    alloc: Global,
    points: &Points,
    order: OrderKind,
    start: StartKind,
    seed: u64,
) -> Result<Vec<u32>, NoMemory>
    ensures order { IfOk result (λ v. v.items ≡ insertion_order points.now.vectors order start seed) }
    ensures count { IfOk result (λ v. length v.items ≡ length points.now.vectors) }
    ensures below { IfOk result (λ v. All (λ u. u < length points.now.vectors) v.items) }
    ensures distinct { IfOk result (λ v. IsDistinct nat_eq v.items) }
{
    let mut ids = ids_by(alloc, points.count(), order, seed)?;
    match start {
        StartKind::First => {}
        StartKind::Medoid => first_to_front(ids.as_mut_slice(), medoid(alloc, points)?),
    }
    Ok(ids)
}
