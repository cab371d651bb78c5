//! Damaged files, each with the status and the line that it gets.
use std::alloc::Global;
use std::sync::Wait;
use std::thread::Threads;
use top_calls::{FOUR, FOUR_BY_FOUR, FOUR_IN_TWO_LAYERS, tells};

/// The place of a word in a file, the word that it becomes, the status, and the line.
type Edit = (usize, u32, u8, &'static [u8]);

static OF_FOUR_BY_FOUR: [Edit; 15] = [
    (
        0,
        0x4e4e4151,
        5,
        b"annbuild: index is malformed at byte 0: magic\n",
    ),
    (
        4,
        3,
        5,
        b"annbuild: index is malformed at byte 4: version\n",
    ),
    (
        4,
        9,
        5,
        b"annbuild: index is malformed at byte 4: version\n",
    ),
    (8, 4, 5, b"annbuild: index is malformed at byte 8: kind\n"),
    (
        12,
        0,
        5,
        b"annbuild: index is malformed at byte 12: zero count\n",
    ),
    (
        12,
        4_194_305,
        9,
        b"annbuild: count is 4194305, limit 4194304\n",
    ),
    (
        16,
        0,
        5,
        b"annbuild: index is malformed at byte 16: zero dim\n",
    ),
    (16, 2_049, 9, b"annbuild: dim is 2049, limit 2048\n"),
    (
        20,
        0,
        5,
        b"annbuild: index is malformed at byte 20: degree\n",
    ),
    (20, 129, 9, b"annbuild: degree is 129, limit 128\n"),
    (
        24,
        4,
        5,
        b"annbuild: index is malformed at byte 24: start\n",
    ),
    (
        28,
        2,
        5,
        b"annbuild: index is malformed at byte 28: layers\n",
    ),
    (
        40,
        3,
        5,
        b"annbuild: index is malformed at byte 40: degree\n",
    ),
    (
        48,
        0,
        5,
        b"annbuild: index is malformed at byte 48: double edge\n",
    ),
    (
        48,
        4,
        5,
        b"annbuild: index is malformed at byte 48: id range\n",
    ),
];

static OF_TWO_LAYERS: [Edit; 7] = [
    (
        48,
        1,
        5,
        b"annbuild: index is malformed at byte 48: self edge\n",
    ),
    (
        68,
        0,
        5,
        b"annbuild: index is malformed at byte 68: layer ids\n",
    ),
    (
        68,
        5,
        5,
        b"annbuild: index is malformed at byte 68: layer ids\n",
    ),
    // The start isn't among the ids.
    (
        72,
        0,
        5,
        b"annbuild: index is malformed at byte 68: layer ids\n",
    ),
    (
        72,
        4,
        5,
        b"annbuild: index is malformed at byte 72: layer ids\n",
    ),
    (
        76,
        2,
        5,
        b"annbuild: index is malformed at byte 76: degree\n",
    ),
    (
        76,
        1,
        5,
        b"annbuild: index is malformed at byte 80: short\n",
    ),
];

static OF_POINTS: [Edit; 6] = [
    (
        0,
        0,
        5,
        b"annbuild: data is malformed at byte 0: zero count\n",
    ),
    (
        0,
        3,
        5,
        b"annbuild: data is malformed at byte 11: trailing\n",
    ),
    (
        0,
        4_194_305,
        9,
        b"annbuild: count is 4194305, limit 4194304\n",
    ),
    (
        4,
        0,
        5,
        b"annbuild: data is malformed at byte 4: zero dim\n",
    ),
    (
        4,
        2,
        5,
        b"annbuild: data is malformed at byte 12: short body\n",
    ),
    (4, 2_049, 9, b"annbuild: dim is 2049, limit 2048\n"),
];

/// A copy of a file of at most 80 bytes, with a word replaced.
fn edited(file: &[u8], place: usize, word: u32) -> [u8; 80] {
    let mut copy = [0u8; 80];
    for (cell, byte) in copy.iter_mut().zip(file) {
        *cell = *byte;
    }
    for (cell, byte) in copy.iter_mut().skip(place).zip(word.to_le_bytes()) {
        *cell = byte;
    }
    copy
}

/// Whether an index with a word replaced is refused as its row says, and leaves its files.
fn is_damaged<R: Threads + Wait + Sync>(rt: &R, alloc: Global, index: &[u8], edit: Edit) -> bool {
    let (place, word, code, line) = edit;
    let copy = edited(index, place, word);
    match copy.get(..index.len()) {
        Some(damaged) => {
            let files = [("pts", FOUR), ("ann", damaged)];
            tells(rt, alloc, "check pts ann", &files, code, line, &files)
        }
        None => false,
    }
}

/// The place and the word of the first row of a table that an index isn't refused by.
fn first_undamaged<R: Threads + Wait + Sync>(
    rt: &R,
    alloc: Global,
    index: &[u8],
    table: &[Edit],
) -> Option<(usize, u32)> {
    for edit in table {
        if !is_damaged(rt, alloc, index, *edit) {
            return Some((edit.0, edit.1));
        }
    }
    None
}

#[test]
fn a_damaged_index_is_refused_with_its_rule_and_place(rt: HostRuntime) {
    let missed = first_undamaged(&rt, rt.alloc(), FOUR_BY_FOUR, &OF_FOUR_BY_FOUR);
    assert!(rt; missed.is_none(), "{missed:?}");
    let missed = first_undamaged(&rt, rt.alloc(), FOUR_IN_TWO_LAYERS, &OF_TWO_LAYERS);
    assert!(rt; missed.is_none(), "{missed:?}");
}

#[test]
fn an_index_of_too_many_words_is_refused(rt: HostRuntime) {
    let counted = edited(FOUR_BY_FOUR, 12, 4_000_000);
    let widened = edited(&counted, 20, 128);
    let files = [("pts", FOUR), ("ann", widened.as_slice())];
    let line = b"annbuild: words is 516000000, limit 134217728\n".as_slice();
    assert!(rt; tells(&rt, rt.alloc(), "check pts ann", &files, 9, line, &files));
}

/// Commands that read points.
static READERS: [&str; 3] = ["check pts ann", "build pts ann", "query pts ann none"];

/// Whether each command over points with a word replaced is refused as their row says.
fn are_damaged<R: Threads + Wait + Sync>(rt: &R, alloc: Global, edit: Edit) -> bool {
    let (place, word, code, line) = edit;
    let copy = edited(FOUR, place, word);
    let files = [("pts", &copy[..12]), ("ann", FOUR_BY_FOUR)];
    for words in &READERS {
        if !tells(rt, alloc, words, &files, code, line, &files) {
            return false;
        }
    }
    true
}

#[test]
fn damaged_points_are_refused_with_their_rule_and_place(rt: HostRuntime) {
    for edit in &OF_POINTS {
        assert!(rt;
            are_damaged(&rt, rt.alloc(), *edit),
            "{} at {}",
            edit.1,
            edit.0
        );
    }
}
