//! `build` from bytes to bytes: worked files, settings, pools and workers.
use ann_shelf::{FreeGate, MemOut, NoMemory, SoundShelf};
use annbuild_commands::annbuild;
use std::alloc::Global;
use std::sync::Wait;
use std::thread::Threads;
use top_calls::{FOUR, FOUR_BY_FOUR, FOUR_BY_ONE, FOUR_LINE, FOUR_WIDE, tells, words_in};

/// Words, the points that they build of, the index that they leave, and their line.
static CASES: [(&str, &[u8], &[u8], &[u8]); 9] = [
    // one point
    (
        "build pts ann",
        b"\x01\0\0\0\x01\0\0\0\x07",
        b"PANN\x01\0\0\0\x01\0\0\0\x01\0\0\0\x01\0\0\0\x40\0\0\0\0\0\0\0\x01\0\0\0\0\0\0\0",
        b"built vamana count 1 dim 1 degree 64 start 0 layers 1 edges 0\n",
    ),
    // two equal points: rows [1] and [0]
    (
        "build pts ann --order file --start first",
        b"\x02\0\0\0\x01\0\0\0\x05\x05",
        b"PANN\x01\0\0\0\x01\0\0\0\x02\0\0\0\x01\0\0\0\x40\0\0\0\0\0\0\0\x01\0\0\0\x01\0\0\0\x01\0\0\0\x01\0\0\0\0\0\0\0",
        b"built vamana count 2 dim 1 degree 64 start 0 layers 1 edges 2\n",
    ),
    // three equal points: rows [1, 2], [0] and [0]
    (
        "build pts ann --order file --start first --degree 2 --beam 4 --alpha 1/1",
        b"\x03\0\0\0\x01\0\0\0\x09\x09\x09",
        b"PANN\x01\0\0\0\x01\0\0\0\x03\0\0\0\x01\0\0\0\x02\0\0\0\0\0\0\0\x01\0\0\0\x02\0\0\0\x01\0\0\0\x02\0\0\0\x01\0\0\0\0\0\0\0\x01\0\0\0\0\0\0\0",
        b"built vamana count 3 dim 1 degree 2 start 0 layers 1 edges 4\n",
    ),
    (
        "build pts ann --order file --start first",
        FOUR,
        FOUR_WIDE,
        b"built vamana count 4 dim 1 degree 64 start 0 layers 1 edges 6\n",
    ),
    (
        "build pts ann --order file --start first --degree 2 --beam 4 --alpha 1/1 --cap 4",
        FOUR,
        FOUR_BY_FOUR,
        FOUR_LINE,
    ),
    (
        "build --cap=1 pts --alpha=1/1 ann --order=file --degree 002 --start first --beam 4",
        FOUR,
        FOUR_BY_ONE,
        b"built vamana count 4 dim 1 degree 2 start 0 layers 1 edges 6\n",
    ),
    // from the medoid, which is point 1
    (
        "build pts ann --order file --start medoid --degree 2 --beam 4 --alpha 1/1 --cap 4",
        FOUR,
        b"PANN\x01\0\0\0\x01\0\0\0\x04\0\0\0\x01\0\0\0\x02\0\0\0\x01\0\0\0\x01\0\0\0\x01\0\0\0\x01\0\0\0\x02\0\0\0\0\0\0\0\x02\0\0\0\x01\0\0\0\x01\0\0\0\x01\0\0\0\x01\0\0\0",
        b"built vamana count 4 dim 1 degree 2 start 1 layers 1 edges 5\n",
    ),
    // in the order of seed 0, from the medoid
    (
        "build pts ann --degree 2 --beam 4 --alpha 1/1 --cap 4",
        FOUR,
        b"PANN\x01\0\0\0\x01\0\0\0\x04\0\0\0\x01\0\0\0\x02\0\0\0\x01\0\0\0\x01\0\0\0\x01\0\0\0\x01\0\0\0\x02\0\0\0\0\0\0\0\x02\0\0\0\x02\0\0\0\x01\0\0\0\x03\0\0\0\x02\0\0\0\x01\0\0\0\x02\0\0\0",
        b"built vamana count 4 dim 1 degree 2 start 1 layers 1 edges 7\n",
    ),
    // in the order of seed 3, from its first
    (
        "build pts ann --seed 3 --start first --degree 2 --beam 4 --alpha 1/1 --cap 4",
        FOUR,
        b"PANN\x01\0\0\0\x01\0\0\0\x04\0\0\0\x01\0\0\0\x02\0\0\0\0\0\0\0\x01\0\0\0\x01\0\0\0\x01\0\0\0\x02\0\0\0\0\0\0\0\x03\0\0\0\x02\0\0\0\x03\0\0\0\0\0\0\0\x01\0\0\0\x02\0\0\0",
        b"built vamana count 4 dim 1 degree 2 start 0 layers 1 edges 6\n",
    ),
];

/// Whether a build of these points leaves this index, beside the points, and tells this line.
fn is_built<R: Threads + Wait + Sync>(
    rt: &R,
    alloc: Global,
    words: &str,
    points: &[u8],
    index: &[u8],
    line: &[u8],
) -> bool {
    let files = [("pts", points)];
    let after = [("ann", index), ("pts", points)];
    tells(rt, alloc, words, &files, 0, line, &after)
}

#[test]
fn worked_files_give_their_indexes(rt: HostRuntime) {
    for (words, points, index, line) in &CASES {
        assert!(rt;
            is_built(&rt, rt.alloc(), words, points, index, line),
            "{words}"
        );
    }
}

/// Words that differ in their pool and in the number of workers.
static CHOICES: [&str; 10] = [
    "build pts ann --order file --start first --degree 2 --beam 4 --alpha 1/1 --cap 4 --pool serial --workers 1",
    "build pts ann --order file --start first --degree 2 --beam 4 --alpha 1/1 --cap 4 --pool serial --workers 64",
    "build pts ann --order file --start first --degree 2 --beam 4 --alpha 1/1 --cap 4 --pool rayon --workers 1",
    "build pts ann --order file --start first --degree 2 --beam 4 --alpha 1/1 --cap 4 --pool rayon --workers 2",
    "build pts ann --order file --start first --degree 2 --beam 4 --alpha 1/1 --cap 4 --pool rayon --workers 7",
    "build pts ann --order file --start first --degree 2 --beam 4 --alpha 1/1 --cap 4 --pool rayon --workers 64",
    "build pts ann --order file --start first --degree 2 --beam 4 --alpha 1/1 --cap 4 --pool steal --workers 1",
    "build pts ann --order file --start first --degree 2 --beam 4 --alpha 1/1 --cap 4 --pool steal --workers 2",
    "build pts ann --order file --start first --degree 2 --beam 4 --alpha 1/1 --cap 4 --pool steal --workers 7",
    "build pts ann --order file --start first --degree 2 --beam 4 --alpha 1/1 --cap 4 --pool steal --workers 64",
];

#[test]
fn every_pool_and_number_of_workers_gives_the_same_index(rt: HostRuntime) {
    let files = [("pts", FOUR)];
    let after = [("ann", FOUR_BY_FOUR)];
    for words in &CHOICES {
        assert!(rt;
            tells(&rt, rt.alloc(), words, &files, 0, FOUR_LINE, &after),
            "{words}"
        );
    }
}

/// The line of [`FOUR_WIDE`].
const WIDE_LINE: &[u8] = b"built vamana count 4 dim 1 degree 64 start 0 layers 1 edges 6\n";

#[test]
fn the_index_may_take_the_name_of_the_points(rt: HostRuntime) {
    let words = "build pts pts --order file --start first";
    let files = [("pts", FOUR)];
    let after = [("pts", FOUR_WIDE)];
    assert!(rt; tells(&rt, rt.alloc(), words, &files, 0, WIDE_LINE, &after));
}

/// Whether a build over a shelf that keeps what is synced gives its index.
fn is_built_on_a_sound_shelf<R: Threads + Wait + Sync>(
    rt: &R,
    alloc: Global,
) -> Result<bool, NoMemory> {
    let words = words_in(alloc, "build pts ann --order file --start first")?;
    let mut shelf = SoundShelf::new(alloc);
    shelf.put("pts", FOUR)?;
    let mut out = MemOut::new(alloc);
    let mut err = MemOut::new(alloc);
    let status = annbuild(rt, alloc, &words, &mut shelf, &mut out, &mut err, &FreeGate);
    Ok(status.code == 0 && shelf.bytes("ann") == Some(FOUR_WIDE))
}

#[test]
fn a_sound_shelf_gives_the_same_index(rt: HostRuntime) {
    assert!(rt; is_built_on_a_sound_shelf(&rt, rt.alloc()) == Ok(true));
}
