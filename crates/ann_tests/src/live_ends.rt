//! Sessions that are refused, and those in which a call fails.
use ann_shelf::NoMemory;
use std::alloc::Global;
use std::sync::Wait;
use std::thread::Threads;
use top_calls::{ASKED, FOUR, FOUR_BY_FOUR, Failing, NONE, Outcome, call, tells};

/// Words and queries of sessions over [`FOUR`] that are refused, with their codes and lines.
static REFUSED: [(&str, &[u8], u8, &[u8]); 6] = [
    (
        "live pts ann ask",
        b"\x01\0\0\0\x02\0\0\0\x0c\x0c",
        6,
        b"annbuild: dim differs: 2 in queries, 1 in data\n",
    ),
    (
        "live pts ann ask",
        b"\x01\0\0\0\x01\0\0\0",
        5,
        b"annbuild: queries is malformed at byte 8: short body\n",
    ),
    (
        "live pts ann ask --kind hnsw",
        ASKED,
        3,
        b"annbuild: setting kind is 2, allowed 1 to 1\n",
    ),
    (
        "live pts ann ask --kind nnd --workers 0",
        ASKED,
        3,
        b"annbuild: setting kind is 3, allowed 1 to 1\n",
    ),
    (
        "live pts ann ask --callers 17",
        ASKED,
        3,
        b"annbuild: setting callers is 17, allowed 1 to 16\n",
    ),
    (
        "live pts ann",
        ASKED,
        2,
        b"annbuild: the words name no request\n",
    ),
];

/// Whether a session over [`FOUR`] is refused with this code and line, and leaves the old index.
fn is_refused<R: Threads + Wait + Sync>(
    rt: &R,
    alloc: Global,
    words: &str,
    asked: &[u8],
    code: u8,
    line: &[u8],
) -> bool {
    let files = [("pts", FOUR), ("ask", asked), ("ann", b"old".as_slice())];
    tells(rt, alloc, words, &files, code, line, &files)
}

#[test]
fn sessions_that_do_not_fit_are_refused_with_their_lines(rt: HostRuntime) {
    for (words, asked, code, line) in &REFUSED {
        assert!(rt;
            is_refused(&rt, rt.alloc(), words, asked, *code, line),
            "{words}"
        );
    }
}

/// A file of 16,385 queries of one byte.
fn many(alloc: Global) -> Result<Vec<u8>, NoMemory> {
    let mut queries = Vec::new(alloc);
    queries.extend_from_slice(b"\x01\x40\0\0\x01\0\0\0")?;
    for _ in 0..16385u32 {
        queries.push(7)?;
    }
    Ok(queries)
}

#[test]
fn a_session_of_too_many_answers_is_refused(rt: HostRuntime) {
    // Each query may be asked for 1,024 answers: 16,778,240 in all.
    let words = "live pts ann ask --search 1024 --k 1024";
    let line = b"annbuild: answers is 16778240, limit 16777216\n".as_slice();
    let asked = many(rt.alloc()).expect(&rt, "memory");
    assert!(rt; is_refused(&rt, rt.alloc(), words, asked.as_slice(), 9, line));
}

/// The worked session where a call of the shelf or of the output fails.
fn failing<R: Threads + Wait + Sync>(
    rt: &R,
    alloc: Global,
    shelf: u64,
    out: u64,
) -> Option<Outcome> {
    let words =
        "live pts ann ask --order file --start first --degree 2 --beam 4 --alpha 1/1 --cap 4 --search 4 --k 1";
    let files = [("pts", FOUR), ("ask", ASKED)];
    let calls = Failing {
        shelf: [shelf, 0],
        out: [out, 0],
        ..NONE
    };
    call(rt, alloc, words, &files, calls).ok()
}

/// Whether a session whose call of the shelf with this number fails tells nothing and leaves no index.
fn leaves_none<R: Threads + Wait + Sync>(rt: &R, alloc: Global, number: u64) -> bool {
    match failing(rt, alloc, number, 0) {
        Some(ended) => {
            (ended.status.code == 4 || ended.status.code == 7)
                && ended.shelf.bytes("ann").is_none()
                && ended.out.bytes().is_empty()
        }
        None => false,
    }
}

/// Whether a session whose write to the output with this number fails says so and leaves a whole index.
fn leaves_all<R: Threads + Wait + Sync>(rt: &R, alloc: Global, number: u64) -> bool {
    match failing(rt, alloc, 0, number) {
        Some(ended) => {
            ended.status.code == 7
                && ended.shelf.bytes("ann") == Some(FOUR_BY_FOUR)
                && ended.err.bytes() == b"annbuild: cannot write output\n".as_slice()
        }
        None => false,
    }
}

/// How many calls of the shelf a session makes that ends well, where the write with this number would fail.
fn calls_of<R: Threads + Wait + Sync>(rt: &R, alloc: Global, number: u64) -> Option<u64> {
    let ended = failing(rt, alloc, 0, number)?;
    if ended.status.code == 0 {
        Some(ended.shelf.calls())
    } else {
        None
    }
}

#[test]
fn a_failing_call_leaves_no_index_or_a_whole_one(rt: HostRuntime) {
    let calls = calls_of(&rt, rt.alloc(), 0).expect(&rt, "a session ends well");
    for number in 1..=calls {
        assert!(rt; leaves_none(&rt, rt.alloc(), number), "{number}");
    }
    // the line of the index, and a piece of lines for each moment
    for number in 1..=3u64 {
        assert!(rt; leaves_all(&rt, rt.alloc(), number), "{number}");
    }
    assert!(rt; calls_of(&rt, rt.alloc(), 4).is_some());
}
