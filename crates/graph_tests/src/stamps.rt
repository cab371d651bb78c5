//! Files of version 2: stamps of each kind that are read and written back, and broken ones.
use crate::damage::IN_LISTS;
use crate::indexes::{FOUR_POINTS, is_malformed, is_written_as};
use ann_shelf::MemShelf;
use graph_files::{IndexRule, read_index};
use std::alloc::Global;

/// An index file of version 1, its kind and its degree, and a stamp: the words before the seed, and the floor.
type Stamped = (&'static [u8], u8, u8, [u32; 14], u64);

/// One of each kind, with greatest and least values of its fields.
const FILES: [Stamped; 4] = [
    (
        &FOUR_POINTS,
        1,
        2,
        [1, 1, 1, 4, 1, 1, 4, 0, 0, 0, 0, 0, 0, 1],
        0,
    ),
    (
        &FOUR_POINTS,
        1,
        2,
        [2, 2, 2, 1024, 1000, 1000, 4_194_304, 0, 0, 0, 0, 0, 0, 2],
        0,
    ),
    (
        &FOUR_POINTS,
        2,
        1,
        [1, 2, 0, 1, 0, 0, 1, 8, 15, 0, 0, 0, 0, 0],
        0,
    ),
    (
        &IN_LISTS,
        3,
        2,
        [2, 0, 2, 0, 1000, 1, 0, 0, 0, 128, 64, 1024, 64, 0],
        18_446_744_073_709_551_615,
    ),
];

/// Words that no stamp of a kind may have at a place: the number of the file, the place, the word.
const BROKEN: [(usize, usize, u32); 37] = [
    (0, 32, 0),
    (0, 32, 3),
    (0, 36, 0),
    (0, 36, 3),
    (0, 40, 0),
    (0, 40, 3),
    (0, 44, 0),
    (0, 44, 1025),
    (0, 48, 0),
    (0, 48, 1001),
    (0, 52, 0),
    (0, 52, 2),
    (0, 56, 0),
    (0, 56, 4_194_305),
    (0, 60, 1),
    (0, 64, 1),
    (0, 68, 1),
    (0, 72, 1),
    (0, 76, 2),
    (0, 80, 1),
    (0, 84, 0),
    (0, 84, 3),
    (0, 96, 1),
    (0, 100, 1),
    (2, 40, 1),
    (2, 48, 1),
    (2, 60, 0),
    (2, 60, 9),
    (2, 64, 16),
    (2, 84, 1),
    (3, 36, 1),
    (3, 44, 1),
    (3, 68, 129),
    (3, 72, 65),
    (3, 76, 1),
    (3, 76, 1025),
    (3, 80, 65),
];

/// Writes some bytes from a place on.
fn put(bytes: &mut [u8; 176], at: usize, more: &[u8]) {
    for (cell, byte) in bytes.iter_mut().skip(at).zip(more) {
        *cell = *byte;
    }
}

/// The file with its stamp, and how many bytes it has. Seed and digest are the numbers from 1 on.
fn stamped(file: &Stamped) -> ([u8; 176], usize) {
    let (plain, kind, degree, words, floor) = file;
    let mut bytes = [0u8; 176];
    put(&mut bytes, 0, plain);
    put(&mut bytes, 136, plain.get(32..).unwrap_or(&[]));
    bytes[4] = 2;
    bytes[8] = *kind;
    bytes[20] = *degree;
    let mut at = 32usize;
    for word in words {
        put(&mut bytes, at, &word.to_le_bytes());
        at = at.wrapping_add(4);
    }
    let mut next = 0u8;
    for cell in bytes.iter_mut().skip(88).take(48) {
        next = next.wrapping_add(1);
        *cell = next;
    }
    put(&mut bytes, 96, &floor.to_le_bytes());
    (bytes, plain.len().wrapping_add(104))
}

/// Whether a file is read, and written back as it was.
fn is_written_back(alloc: Global, bytes: &[u8]) -> bool {
    let mut shelf = MemShelf::new(alloc);
    if shelf.put("index", bytes).is_err() {
        return false;
    }
    match read_index(alloc, &mut shelf, "index") {
        Ok(index) => { index.stamp.is_some() && is_written_as(&mut shelf, &index, bytes) }
        Err(_) => false,
    }
}

#[test]
fn a_stamped_index_of_each_kind_is_read_and_written_back(rt: HostRuntime) {
    for file in &FILES {
        let (bytes, len) = stamped(file);
        assert!(rt;
            bytes
                .get(..len)
                .is_some_and(|whole| is_written_back(rt.alloc(), whole))
        );
    }
}

/// Whether a file with a word replaced is refused by the rule of stamps at the field.
fn is_refused(alloc: Global, file: &Stamped, at: usize, word: u32) -> bool {
    let (mut bytes, len) = stamped(file);
    put(&mut bytes, at, &word.to_le_bytes());
    let place = if at == 100 { 96 } else { at as u64 };
    match bytes.get(..len) {
        Some(whole) => is_malformed(alloc, whole, place, IndexRule::Stamp),
        None => false,
    }
}

#[test]
fn a_field_that_no_stamp_of_the_kind_has_is_refused_at_its_place(rt: HostRuntime) {
    for (number, at, word) in BROKEN {
        let refused = match FILES.get(number) {
            Some(file) => is_refused(rt.alloc(), file, at, word),
            None => false,
        };
        assert!(rt; refused, "{word} at {at} of {number}");
    }
}

#[test]
fn each_cut_of_a_stamp_is_refused_where_it_ends(rt: HostRuntime) {
    for file in &FILES {
        let (bytes, _) = stamped(file);
        for cut in 32..140 {
            assert!(rt;
                is_malformed(rt.alloc(), &bytes[..cut], cut as u64, IndexRule::Short),
                "cut at {cut}"
            );
        }
    }
}
