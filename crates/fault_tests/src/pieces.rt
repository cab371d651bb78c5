//! A shelf and outputs that move few bytes in one call.
use std::alloc::Global;
use std::sync::Wait;
use std::thread::Threads;
use top_calls::{Failing, NONE, RUNS, Run};

/// How many bytes a call moves at most.
static PIECES: [usize; 4] = [1, 2, 3, 7];

/// Whether a run in pieces of so many bytes is done. One that only reads makes a call for each byte of its points at least, where a
/// piece is one byte.
fn is_done_in<R: Threads + Wait + Sync>(rt: &R, alloc: Global, run: &Run, piece: usize) -> bool {
    let is_counted = run.last > 0 && run.last < 4 && piece == 1;
    match run.done(rt, alloc, Failing { piece, ..NONE }) {
        Ok(ended) => {
            run.is_done(&ended) && (!is_counted || ended.shelf.calls() >= run.pts.len() as u64)
        }
        Err(_) => false,
    }
}

#[test]
fn pieces_of_a_few_bytes_give_the_same_files_and_lines(rt: HostRuntime) {
    for run in &RUNS {
        for piece in &PIECES {
            assert!(rt;
                is_done_in(&rt, rt.alloc(), run, *piece),
                "{} in {piece}",
                run.words
            );
        }
    }
}
