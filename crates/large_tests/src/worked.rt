//! Worked indexes of four points: how they are built, and what they answer.
use std::alloc::Global;
use std::sync::Wait;
use std::thread::Threads;
use top_calls::{FOUR, tells};

/// Whether these words build this index of the four points and print this line.
pub(crate) fn is_built<R: Threads + Wait + Sync>(
    rt: &R,
    alloc: Global,
    words: &str,
    line: &[u8],
    index: &[u8],
) -> bool {
    let built = [("pts", FOUR), ("ann", index)];
    tells(rt, alloc, words, &[("pts", FOUR)], 0, line, &built)
}

/// Whether an index of the four points is checked with this line.
pub(crate) fn is_checked<R: Threads + Wait + Sync>(
    rt: &R,
    alloc: Global,
    line: &[u8],
    index: &[u8],
) -> bool {
    let files = [("pts", FOUR), ("ann", index)];
    tells(rt, alloc, "check pts ann", &files, 0, line, &files)
}

/// Whether an index of the four points gives the two nearest of 12.
pub(crate) fn is_answered<R: Threads + Wait + Sync>(rt: &R, alloc: Global, index: &[u8]) -> bool {
    let asked = b"\x01\0\0\0\x01\0\0\0\x0c".as_slice();
    let files = [("pts", FOUR), ("ann", index), ("ask", asked)];
    let words = "query pts ann ask --search 4 --k 2";
    tells(rt, alloc, words, &files, 0, b"0 1:4 2:64\n", &files)
}
