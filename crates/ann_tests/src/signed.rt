//! Signed bytes: what `--type` says of the data and of the queries.
use crate::live::batches_of;
use std::alloc::Global;
use std::sync::Wait;
use std::thread::Threads;
use top_calls::{FOUR_BY_FOUR, FOUR_BY_ONE, FOUR_LINE, NONE, Outcome, call};

/// The points -20, -10, 0 and 10 as signed bytes. Without a sign they are 236, 246, 0 and 10.
pub(crate) const SIGNED: &[u8] = b"\x04\0\0\0\x01\0\0\0\xec\xf6\0\x0a";

/// Two queries: -8 and 10, or 248 and 10.
const ASKED: &[u8] = b"\x02\0\0\0\x01\0\0\0\xf8\x0a";

/// The index of the bytes of [`SIGNED`] without a sign: rows [1, 3], [0], [0] and [0].
pub(crate) const UNSIGNED: &[u8] =
    b"PANN\x01\0\0\0\x01\0\0\0\x04\0\0\0\x01\0\0\0\x02\0\0\0\0\0\0\0\x01\0\0\0\x02\0\0\0\x01\0\0\0\x03\0\0\0\x01\0\0\0\0\0\0\0\x01\0\0\0\0\0\0\0\x01\0\0\0\0\0\0\0";

/// Words over `pts`, which holds [`SIGNED`]: what `ann` holds before and after, and the lines.
static CASES: [(&str, &[u8], &[u8], &[u8]); 6] = [
    (
        "build pts ann --order file --start first --degree 2 --beam 4 --alpha 1/1 --cap 4 --type i8",
        b"old",
        FOUR_BY_FOUR,
        FOUR_LINE,
    ),
    (
        "build pts ann --order file --start first --degree 2 --beam 4 --alpha 1/1 --cap 4 --type u8",
        b"old",
        UNSIGNED,
        FOUR_LINE,
    ),
    (
        "build pts ann --order file --start first --degree 2 --beam 4 --alpha 1/1 --cap 4",
        b"old",
        UNSIGNED,
        FOUR_LINE,
    ),
    (
        "query pts ann ask --type i8",
        FOUR_BY_ONE,
        FOUR_BY_ONE,
        b"0 1:4 2:64 0:144 3:324\n1 3:0 2:100 1:400 0:900\n",
    ),
    (
        "query pts ann ask",
        FOUR_BY_ONE,
        FOUR_BY_ONE,
        b"0 1:4 0:144 3:56644 2:61504\n1 3:0 2:100 0:51076 1:55696\n",
    ),
    (
        "check pts ann --type i8",
        FOUR_BY_ONE,
        FOUR_BY_ONE,
        b"ok vamana count 4 dim 1 degree 2 start 0 layers 1 edges 6 longest 2\n",
    ),
];

/// Whether a call is done, and leaves this index.
fn is_done(ended: &Outcome, after: &[u8]) -> bool {
    ended.status.code == 0
        && ended.err.bytes().is_empty()
        && ended.shelf.bytes("ann") == Some(after)
        && ended.shelf.bytes("pts") == Some(SIGNED)
}

/// Whether a call ends as a case says.
fn is_as_told<R: Threads + Wait + Sync>(
    rt: &R,
    alloc: Global,
    case: (&str, &[u8], &[u8], &[u8]),
) -> bool {
    let (words, before, after, lines) = case;
    let files = [("pts", SIGNED), ("ann", before), ("ask", ASKED)];
    match call(rt, alloc, words, &files, NONE) {
        Ok(ended) => is_done(&ended, after) && ended.out.bytes() == lines,
        Err(_) => false,
    }
}

#[test]
fn the_type_says_how_data_and_queries_are_read(rt: HostRuntime) {
    for case in &CASES {
        assert!(rt; is_as_told(&rt, rt.alloc(), *case), "{}", case.0);
    }
}

/// Whether a session over signed bytes tells the lines of the worked one, whose points and queries are 20 more.
fn is_worked_session<R: Threads + Wait + Sync>(rt: &R, alloc: Global) -> bool {
    let words =
        "live pts ann ask --type i8 --order file --start first --degree 2 --beam 4 --alpha 1/1 --cap 4 --search 4 --k 1";
    match call(rt, alloc, words, &[("pts", SIGNED), ("ask", ASKED)], NONE) {
        Ok(ended) => is_done(&ended, FOUR_BY_FOUR) && batches_of(&ended).is_some(),
        Err(_) => false,
    }
}

#[test]
fn a_session_over_signed_bytes_tells_of_their_distances(rt: HostRuntime) {
    assert!(rt; is_worked_session(&rt, rt.alloc()));
}
