//! Words and settings that are refused, each with its status and its line on err.
use std::alloc::Global;
use std::sync::Wait;
use std::thread::Threads;
use top_calls::{FOUR, NONE, call};

/// Whether these words are refused with this status and line before any file is read or made, and tell nothing else.
fn are_refused<R: Threads + Wait + Sync>(
    rt: &R,
    alloc: Global,
    words: &str,
    code: u8,
    line: &[u8],
) -> bool {
    match call(rt, alloc, words, &[("pts", FOUR)], NONE) {
        Ok(ended) => {
            ended.status.code == code
                && ended.shelf.bytes("ann").is_none()
                && ended.shelf.calls() == 0
                && ended.out.bytes().is_empty()
                && ended.err.bytes() == line
        }
        Err(_) => false,
    }
}

/// Words that mean no request.
static NO_REQUEST: [&str; 10] = [
    "",
    "build pts",
    "build pts ann more",
    "build pts ann --degree 2 --degree 3",
    "build pts ann --bits 4",
    "build pts ann --degree x",
    "build pts ann -v",
    "grow pts ann",
    "query pts ann",
    "query pts ann ask --degree 2",
];

#[test]
fn words_that_mean_no_request_are_usage(rt: HostRuntime) {
    let line = b"annbuild: the words name no request\n".as_slice();
    for words in &NO_REQUEST {
        assert!(rt; are_refused(&rt, rt.alloc(), words, 2, line), "{words}");
    }
}

/// Words with a setting out of its range, and the line that names it.
static OUT_OF_RANGE: [(&str, &[u8]); 5] = [
    (
        "build none ann --alpha 9/10",
        b"annbuild: setting alpha-num is 9, allowed 10 to 1000\n",
    ),
    (
        "build none ann --degree 0",
        b"annbuild: setting degree is 0, allowed 1 to 128\n",
    ),
    (
        "build none ann --cap 0 --beam 1025",
        b"annbuild: setting beam is 1025, allowed 1 to 1024\n",
    ),
    (
        "build none ann --workers 65",
        b"annbuild: setting workers is 65, allowed 1 to 64\n",
    ),
    (
        "query none ann ask --search 4 --k 5",
        b"annbuild: setting k is 5, allowed 1 to 4\n",
    ),
];

#[test]
fn the_first_setting_out_of_its_range_is_named(rt: HostRuntime) {
    for (words, line) in &OUT_OF_RANGE {
        assert!(rt; are_refused(&rt, rt.alloc(), words, 3, line), "{words}");
    }
}
