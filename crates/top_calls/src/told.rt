//! What a call has to leave and to tell.
use crate::{NONE, Outcome, call};
use ann_shelf::MemShelf;
use std::alloc::Global;
use std::sync::Wait;
use std::thread::Threads;

/// Whether a shelf holds each of these files.
pub fn holds(shelf: &MemShelf, files: &[(&str, &[u8])]) -> bool {
    for (name, bytes) in files {
        if shelf.bytes(name) != Some(*bytes) {
            return false;
        }
    }
    true
}

/// Whether a call ended with this code, and told these lines alone: as its output where the code is 0, else as its error.
fn has_told(ended: &Outcome, code: u8, lines: &[u8]) -> bool {
    let (told, other) = if code == 0 {
        (ended.out.bytes(), ended.err.bytes())
    } else {
        (ended.err.bytes(), ended.out.bytes())
    };
    ended.status.code == code
        && ended.status.fault.is_none() == (code == 0)
        && told == lines
        && other.is_empty()
}

/// Whether a call over files ends with this code and these lines, and leaves those files.
pub fn tells<R: Threads + Wait + Sync>(
    rt: &R,
    alloc: Global,
    words: &str,
    files: &[(&str, &[u8])],
    code: u8,
    lines: &[u8],
    after: &[(&str, &[u8])],
) -> bool {
    match call(rt, alloc, words, files, NONE) {
        Ok(ended) => has_told(&ended, code, lines) && holds(&ended.shelf, after),
        Err(_) => false,
    }
}
