//! Each call at values from outside: published vectors, worked examples and an independent reference.
ghost use Rattle.std.specs.Prelude.{◌≤◌, length};

use ann_defs::{OrderKind, StartKind};
use ann_shelf::NoMemory;
use bin_files::Points;
use seeded_order::{
    file_order, first_to_front, insertion_order_of, level, levels, made_points, medoid, order, word,
};
use std::alloc::Global;

// The four points 0, 10, 20 and 30.
const LINE: [u8; 4] = [0, 10, 20, 30];

#[test]
fn words_are_those_of_the_published_generator(rt: HostRuntime) {
    // The vectors that rand_pcg and PCG's reference code give for the state 42 and the stream 54.
    assert!(rt; word(42, 54, 0) == 0x86b1da1d72062b68);
    assert!(rt; word(42, 54, 1) == 0x1304aa46c9853d39);
    assert!(rt; word(42, 54, 2) == 0xa3670e9e0dd50358);
    assert!(rt; word(0, 1, 0) == 0xacdbf879b3c73375);
    assert!(rt; word(0, 1, 1) == 0x7ea754d074e8d88f);
    assert!(rt; word(0, 1, 2) == 0xf8fc7aec8ae6245a);
}

// Whether the order of so many ids with this seed is this one.
fn is_order(alloc: Global, count: u32, seed: u64, ids: &[u32]) -> Result<bool, NoMemory>
    requires { (1 ≤ count) × (count ≤ 8) }
{
    Ok(order(alloc, count, seed)?.as_slice() == ids)
}

// Whether the order in the file is this one.
fn is_file_order(alloc: Global, ids: &[u32]) -> Result<bool, NoMemory> {
    Ok(file_order(alloc, 4)?.as_slice() == ids)
}

#[test]
fn seeded_orders_differ_by_their_seeds(rt: HostRuntime) {
    assert!(rt; is_file_order(rt.alloc(), &[0, 1, 2, 3]) == Ok(true));
    assert!(rt; is_order(rt.alloc(), 8, 0, &[7, 5, 6, 3, 1, 0, 4, 2]) == Ok(true));
    assert!(rt; is_order(rt.alloc(), 8, 1, &[4, 5, 3, 6, 1, 0, 7, 2]) == Ok(true));
}

#[test]
fn the_others_keep_their_order(rt: HostRuntime) {
    let mut list = [0, 1, 2, 3];
    first_to_front(&mut list, 2);
    assert!(rt; list.as_slice() == [2, 0, 1, 3].as_slice());
}

// Whether the points of the line are inserted in this order.
fn is_inserted(
    alloc: Global,
    order: OrderKind,
    start: StartKind,
    ids: &[u32],
) -> Result<bool, NoMemory> {
    let points = Points::from_bytes(1, LINE.to_vec(alloc)?);
    let found = insertion_order_of(alloc, &points, order, start, 0)?;
    Ok(found.as_slice() == ids)
}

// The medoid of the line.
fn medoid_of_the_line(alloc: Global) -> Result<u32, NoMemory> {
    let points = Points::from_bytes(1, LINE.to_vec(alloc)?);
    medoid(alloc, &points)
}

#[test]
fn the_medoid_comes_first(rt: HostRuntime) {
    let alloc = rt.alloc();
    assert!(rt; medoid_of_the_line(alloc) == Ok(1));
    assert!(rt; is_inserted(alloc, OrderKind::File, StartKind::Medoid, &[1, 0, 2, 3]) == Ok(true));
    assert!(rt; is_inserted(alloc, OrderKind::Seeded, StartKind::First, &[3, 1, 0, 2]) == Ok(true));
    assert!(rt;
        is_inserted(alloc, OrderKind::Seeded, StartKind::Medoid, &[1, 3, 0, 2]) == Ok(true)
    );
}

// Whether these are the levels of eight ids with one bit a level and at most level 2.
fn are_levels(alloc: Global, wanted: &[u8]) -> Result<bool, NoMemory> {
    Ok(levels(alloc, 8, 0, 1, 2)?.as_slice() == wanted)
}

#[test]
fn levels_are_leading_zeros(rt: HostRuntime) {
    assert!(rt; level(0x8000_0000_0000_0000, 4, 15) == 0);
    assert!(rt; level(0, 4, 15) == 15);
    assert!(rt; level(1, 4, 15) == 15);
    assert!(rt; are_levels(rt.alloc(), &[0, 2, 2, 2, 1, 2, 0, 1]) == Ok(true));
}

// Whether these are the points of so many bytes each that seed 7 makes of the words from this one on.
fn are_made(alloc: Global, dim: u32, from: u64, wanted: &[&[u8]]) -> Result<bool, NoMemory>
    requires dim { (1 ≤ dim) × (dim ≤ 6) }
    requires from { from ≤ 5 }
    requires wanted { (1 ≤ length wanted.now) × (length wanted.now ≤ 3) }
{
    let points = made_points(alloc, wanted.len() as u32, dim, 7, from)?;
    if points.count() as usize != wanted.len() {
        return Ok(false);
    }
    for (id, point) in wanted.iter().enumerate() {
        if points.at(id as u32) != *point {
            return Ok(false);
        }
    }
    Ok(true)
}

#[test]
fn points_are_made_of_the_words_of_stream_0(rt: HostRuntime) {
    let alloc = rt.alloc();
    let three: [&[u8]; 3] = [
        &[57, 136, 148, 195, 189],
        &[89, 169, 52, 29, 91],
        &[8, 153, 38, 204, 130],
    ];
    assert!(rt; are_made(alloc, 5, 0, &three) == Ok(true));
    assert!(rt; are_made(alloc, 6, 5, &[&[89, 169, 52, 29, 91, 8]]) == Ok(true));
}
