//! Signed bytes, stamped indexes and two passes, from bytes to bytes.
use crate::signed::{SIGNED, UNSIGNED};
use std::alloc::Global;
use std::sync::Wait;
use std::thread::Threads;
use top_calls::{ASKED, FOUR, FOUR_BY_FOUR, FOUR_BY_ONE, FOUR_STAMPED, NONE, call, tells};

/// What is to stand after some words: the code, the file `ann`, and the lines of both outputs together.
type Case = (
    &'static str,
    &'static [u8],
    &'static [u8],
    u8,
    &'static [u8],
    &'static [u8],
);

/// [`FOUR`] with another last point.
const OTHERS: &[u8] = b"\x04\0\0\0\x01\0\0\0\0\x0a\x14\x1f";

const OLD: &[u8] = b"old";

/// Words over `pts`, `ann` and `ask`: these bytes of `pts` and `ann`, the code, `ann` after it, and what was printed.
static CASES: [Case; 9] = [
    (
        "build pts ann --order file --start first --degree 2 --beam 4 --alpha 1/1 --cap 4 --type i8",
        SIGNED,
        OLD,
        0,
        FOUR_BY_FOUR,
        b"built vamana count 4 dim 1 degree 2 start 0 layers 1 edges 5\n",
    ),
    (
        "build pts ann --order file --start first --degree 2 --beam 4 --alpha 1/1 --cap 4 --type u8",
        SIGNED,
        OLD,
        0,
        UNSIGNED,
        b"built vamana count 4 dim 1 degree 2 start 0 layers 1 edges 5\n",
    ),
    (
        "build pts ann --order file --start first --degree 2 --beam 4 --alpha 1/1 --cap 4 --passes 2",
        FOUR,
        OLD,
        0,
        FOUR_BY_ONE,
        b"built vamana count 4 dim 1 degree 2 start 0 layers 1 edges 6\n",
    ),
    (
        "check pts ann",
        OTHERS,
        FOUR_STAMPED,
        6,
        FOUR_STAMPED,
        b"annbuild: digest differs: 74289296610337292 in index, 18381229640562415814 in data\n",
    ),
    (
        "check pts ann --type i8",
        FOUR,
        FOUR_STAMPED,
        6,
        FOUR_STAMPED,
        b"annbuild: element differs: 1 in index, 2 in data\n",
    ),
    (
        "query pts ann ask --type i8",
        OTHERS,
        FOUR_STAMPED,
        6,
        FOUR_STAMPED,
        b"annbuild: element differs: 1 in index, 2 in data\n",
    ),
    (
        "query pts ann ask --type i8 --search 4 --k 2",
        SIGNED,
        FOUR_BY_FOUR,
        0,
        FOUR_BY_FOUR,
        b"0 2:144 1:484\n1 2:900 1:1600\n",
    ),
    (
        "build pts ann --format 3 --count 0",
        FOUR,
        OLD,
        2,
        OLD,
        b"annbuild: the words name no request\n",
    ),
    (
        "build pts ann --format 3 --passes 0",
        FOUR,
        OLD,
        3,
        OLD,
        b"annbuild: setting passes is 0, allowed 1 to 2\n",
    ),
];

/// Whether a call ends as a case says.
fn is_as_told<R: Threads + Wait + Sync>(rt: &R, alloc: Global, case: &Case) -> bool {
    let (words, points, index, code, after, told) = *case;
    let files = [("pts", points), ("ann", index), ("ask", ASKED)];
    let left = [("pts", points), ("ann", after)];
    tells(rt, alloc, words, &files, code, told, &left)
}

#[test]
fn elements_stamps_and_passes_give_their_files_and_lines(rt: HostRuntime) {
    for case in &CASES {
        assert!(rt; is_as_told(&rt, rt.alloc(), case), "{}", case.0);
    }
}

/// How a session in two passes over [`FOUR`] ends: whether it tells of six batches and of the last graph.
fn is_last_of_six<R: Threads + Wait + Sync>(rt: &R, alloc: Global) -> bool {
    let words =
        "live pts ann ask --order file --start first --degree 2 --beam 4 --alpha 1/1 --cap 4 --callers 2 --search 4 --k 1 --passes 2";
    let files = [("pts", FOUR), ("ask", ASKED)];
    let Ok(ended) = call(rt, alloc, words, &files, NONE) else {
        return false;
    };
    ended.out.bytes().ends_with(b"last 0 6 1:4\nlast 1 6 3:0\n")
        && ended.shelf.bytes("ann") == Some(FOUR_BY_ONE)
}

#[test]
fn a_session_in_two_passes_ends_with_the_last_batch_of_the_second(rt: HostRuntime) {
    assert!(rt; is_last_of_six(&rt, rt.alloc()));
}
