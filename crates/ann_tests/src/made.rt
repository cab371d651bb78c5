//! `make`, `trial` and `check`: made points, a large run over each pool, and an index that is checked.
use ann_shelf::NoMemory;
use std::alloc::Global;
use std::sync::Wait;
use std::thread::Threads;
use top_calls::{FOUR, FOUR_BY_FOUR, NONE, call, tells};

/// Three points of five bytes: the generator's first fifteen bytes for seed 7.
const THREE: &[u8] =
    b"\x03\0\0\0\x05\0\0\0\x39\x88\x94\xc3\xbd\x59\xa9\x34\x1d\x5b\x08\x99\x26\xcc\x82";

/// The lines of the large run, by a program that follows the definitions step by step.
const TRIED: &[u8] =
    b"built vamana count 2000 dim 16 degree 32 start 201 layers 1 edges 49161\nqueries 100 answers 1000 total 57220337\n";

#[test]
fn made_points_are_the_bytes_of_the_generator(rt: HostRuntime) {
    let words = "make pts --count 3 --dim 5 --seed 7";
    let line = b"made count 3 dim 5\n".as_slice();
    assert!(rt; tells(&rt, rt.alloc(), words, &[], 0, line, &[("pts", THREE)]));
}

#[test]
fn points_of_too_many_numbers_are_not_made(rt: HostRuntime) {
    let line = b"annbuild: cells is 1073743872, limit 1073741824\n".as_slice();
    let files = [("pts", FOUR)];
    for words in [
        "make pts --count 524289 --dim 2048",
        "trial --count 524289 --dim 2048",
    ] {
        assert!(rt;
            tells(&rt, rt.alloc(), words, &files, 9, line, &files),
            "{words}"
        );
    }
}

/// Whether the large run tells its lines, and calls the shelf for nothing.
fn is_tried<R: Threads + Wait + Sync>(
    rt: &R,
    alloc: Global,
    pool: &str,
    workers: u32,
) -> Result<bool, NoMemory> {
    let words = format!(in alloc;
        "trial --count 2000 --dim 16 --degree 32 --beam 64 --queries 100 --seed 1 --pool {pool} --workers {workers}"
    )?;
    let ended = call(rt, alloc, words.as_str(), &[], NONE)?;
    Ok(ended.status.code == 0 && ended.shelf.calls() == 0 && ended.out.bytes() == TRIED)
}

#[test]
fn a_large_trial_is_the_same_over_each_pool(rt: HostRuntime) {
    for pool in ["serial", "rayon", "steal"] {
        for workers in [1, 8] {
            assert!(rt;
                is_tried(&rt, rt.alloc(), pool, workers) == Ok(true),
                "{pool} {workers}"
            );
        }
    }
}

/// Whether a check of an index of these points ends with this code and line.
fn is_checked<R: Threads + Wait + Sync>(
    rt: &R,
    alloc: Global,
    points: &[u8],
    index: &[u8],
    code: u8,
    line: &[u8],
) -> bool {
    let files = [("pts", points), ("ann", index)];
    tells(rt, alloc, "check pts ann", &files, code, line, &files)
}

#[test]
fn a_checked_index_is_told(rt: HostRuntime) {
    let line = b"ok vamana count 4 dim 1 degree 2 start 0 layers 1 edges 5 longest 2\n".as_slice();
    assert!(rt; is_checked(&rt, rt.alloc(), FOUR, FOUR_BY_FOUR, 0, line));
}

/// A byte of the file, what it becomes, and the line that is told.
static CHANGED: [(usize, u8, &[u8]); 5] = [
    (
        48,
        0,
        b"annbuild: index is malformed at byte 48: double edge\n",
    ),
    (
        48,
        1,
        b"annbuild: index is malformed at byte 48: self edge\n",
    ),
    (
        48,
        4,
        b"annbuild: index is malformed at byte 48: id range\n",
    ),
    (40, 3, b"annbuild: index is malformed at byte 40: degree\n"),
    (0, 81, b"annbuild: index is malformed at byte 0: magic\n"),
];

/// Whether the index with this byte is refused with this line.
fn is_changed<R: Threads + Wait + Sync>(
    rt: &R,
    alloc: Global,
    place: usize,
    byte: u8,
    line: &[u8],
) -> bool {
    let mut index = [0u8; 68];
    index.copy_from_slice(FOUR_BY_FOUR);
    if let Some(cell) = index.get_mut(place) {
        *cell = byte;
    }
    is_checked(rt, alloc, FOUR, index.as_slice(), 5, line)
}

#[test]
fn a_changed_index_is_not_told(rt: HostRuntime) {
    for (place, byte, line) in &CHANGED {
        assert!(rt;
            is_changed(&rt, rt.alloc(), *place, *byte, line),
            "{byte} at {place}"
        );
    }
}

#[test]
fn a_longer_and_a_shorter_index_are_not_told(rt: HostRuntime) {
    let mut long = [0u8; 69];
    long[..68].copy_from_slice(FOUR_BY_FOUR);
    let line = b"annbuild: index is malformed at byte 68: trailing\n".as_slice();
    assert!(rt; is_checked(&rt, rt.alloc(), FOUR, long.as_slice(), 5, line));
    let line = b"annbuild: index is malformed at byte 50: short\n".as_slice();
    assert!(rt; is_checked(&rt, rt.alloc(), FOUR, &FOUR_BY_FOUR[..50], 5, line));
}

#[test]
fn an_index_of_other_points_is_not_told(rt: HostRuntime) {
    let three = b"\x03\0\0\0\x01\0\0\0\x00\x0a\x14".as_slice();
    let line = b"annbuild: count differs: 4 in index, 3 in data\n".as_slice();
    assert!(rt; is_checked(&rt, rt.alloc(), three, FOUR_BY_FOUR, 6, line));
}
