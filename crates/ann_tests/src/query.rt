//! `query`: worked answers, files that don't fit together, and lines that are written in pieces.
use ann_shelf::NoMemory;
use annbuild_commands::{Fault, Role};
use std::alloc::Global;
use std::sync::Wait;
use std::thread::Threads;
use top_calls::{FOUR, FOUR_BY_FOUR, FOUR_BY_ONE, Failing, NONE, call, tells};

/// The words of a query with the default settings.
const WORDS: &str = "query pts ann ask";

/// Words, the index and the queries that they are over, and their lines.
static WORKED: [(&str, &[u8], &[u8], &[u8]); 6] = [
    (
        "query pts ann ask --search 4 --k 2",
        FOUR_BY_FOUR,
        b"\x01\0\0\0\x01\0\0\0\x0c",
        b"0 1:4 2:64\n",
    ),
    // k is at most the width of the search
    (
        "query pts ann ask --search 1",
        FOUR_BY_FOUR,
        b"\x01\0\0\0\x01\0\0\0\x0c",
        b"0 1:4\n",
    ),
    // no row leads to point 3
    (
        "query pts ann ask --search 4 --k 1",
        FOUR_BY_FOUR,
        b"\x02\0\0\0\x01\0\0\0\x0c\x1e",
        b"0 1:4\n1 2:100\n",
    ),
    (
        "query pts ann ask --search 4 --k 1 --pool serial",
        FOUR_BY_ONE,
        b"\x02\0\0\0\x01\0\0\0\x0c\x1e",
        b"0 1:4\n1 3:0\n",
    ),
    (
        "query pts ann ask --workers 7",
        FOUR_BY_ONE,
        b"\x02\0\0\0\x01\0\0\0\x0c\x1e",
        b"0 1:4 2:64 0:144 3:324\n1 3:0 2:100 1:400 0:900\n",
    ),
    // in another order of asking
    (
        "query pts ann ask --search 4 --k 1 --workers 2",
        FOUR_BY_ONE,
        b"\x02\0\0\0\x01\0\0\0\x1e\x0c",
        b"0 3:0\n1 1:4\n",
    ),
];

/// Whether a query of these files ends with this code and these lines, and leaves its files.
fn is_answered<R: Threads + Wait + Sync>(
    rt: &R,
    alloc: Global,
    words: &str,
    files: [&[u8]; 3],
    code: u8,
    lines: &[u8],
) -> bool {
    let [points, index, queries] = files;
    let files = [("pts", points), ("ann", index), ("ask", queries)];
    tells(rt, alloc, words, &files, code, lines, &files)
}

#[test]
fn worked_queries_give_their_lines(rt: HostRuntime) {
    for (words, index, queries, lines) in &WORKED {
        let files = [FOUR, *index, *queries];
        assert!(rt;
            is_answered(&rt, rt.alloc(), words, files, 0, lines),
            "{words}"
        );
    }
}

/// Points and queries that don't fit [`FOUR_BY_FOUR`] or one another, and the line that says so.
static UNFIT: [(&[u8], &[u8], &[u8]); 3] = [
    (
        b"\x03\0\0\0\x01\0\0\0\x00\x0a\x14",
        b"\x01\0\0\0\x02\0\0\0\x0c\x0c",
        b"annbuild: count differs: 4 in index, 3 in data\n",
    ),
    (
        b"\x04\0\0\0\x02\0\0\0\x00\x0a\x14\x1e\x00\x0a\x14\x1e",
        b"\x01\0\0\0\x01\0\0\0\x0c",
        b"annbuild: dim differs: 1 in index, 2 in data\n",
    ),
    (
        FOUR,
        b"\x01\0\0\0\x02\0\0\0\x0c\x0c",
        b"annbuild: dim differs: 2 in queries, 1 in data\n",
    ),
];

#[test]
fn files_that_do_not_fit_are_refused_in_their_order(rt: HostRuntime) {
    for (points, queries, line) in &UNFIT {
        let files = [*points, FOUR_BY_FOUR, *queries];
        assert!(rt; is_answered(&rt, rt.alloc(), WORDS, files, 6, line));
    }
}

/// A file of 5,000 queries, all for 12.
fn five_thousand(alloc: Global) -> Result<Vec<u8>, NoMemory> {
    let mut queries = Vec::new(alloc);
    queries.extend_from_slice(b"\x88\x13\0\0\x01\0\0\0")?;
    for _ in 0..5000u32 {
        queries.push(12)?;
    }
    Ok(queries)
}

/// How many bytes are written where the write with this number fails, of which there are three. They are whole lines, with
/// which the whole output begins; else there is no number.
fn written_before<R: Threads + Wait + Sync>(
    rt: &R,
    alloc: Global,
    files: &[(&str, &[u8])],
    whole: &[u8],
    number: u64,
) -> Option<usize> {
    let calls = Failing {
        out: [number, 0],
        ..NONE
    };
    let ended = call(rt, alloc, WORDS, files, calls).ok()?;
    let lines = ended.out.bytes();
    let is_ended = if number < 4 {
        ended.status.fault == Some(Fault::Write { file: Role::Output })
    } else {
        ended.status.code == 0
    };
    if is_ended && whole.starts_with(lines) && (lines.is_empty() || lines.ends_with(b"\n")) {
        Some(lines.len())
    } else {
        None
    }
}

/// Whether these bytes are written in three pieces of at most 65,536 bytes.
fn is_in_three<R: Threads + Wait + Sync>(
    rt: &R,
    alloc: Global,
    files: &[(&str, &[u8])],
    whole: &[u8],
) -> bool {
    let mut before = 0usize;
    for number in 1..=4u64 {
        match written_before(rt, alloc, files, whole, number) {
            Some(bytes) if bytes >= before && bytes - before <= 65_536 => before = bytes,
            _ => return false,
        }
    }
    before == whole.len()
}

/// Whether the answers to these queries are written in three pieces.
fn is_written_in_three<R: Threads + Wait + Sync>(rt: &R, alloc: Global, asked: &[u8]) -> bool {
    let files = [("pts", FOUR), ("ann", FOUR_BY_ONE), ("ask", asked)];
    match call(rt, alloc, WORDS, &files, NONE) {
        Ok(ended) => { ended.status.code == 0 && is_in_three(rt, alloc, &files, ended.out.bytes()) }
        Err(_) => false,
    }
}

#[test]
fn a_round_is_written_in_pieces_of_whole_lines(rt: HostRuntime) {
    // A line has about 26 bytes: the 4,096 lines of the first round fill two pieces, and the others one.
    let asked = five_thousand(rt.alloc()).expect(&rt, "memory");
    assert!(rt; is_written_in_three(&rt, rt.alloc(), asked.as_slice()));
}
