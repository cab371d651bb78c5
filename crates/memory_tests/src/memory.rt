//! One allocation that fails. In a run of the tests none does; `rt try --test --fail-alloc N` makes the Nth of each test
//! fail, and `tests/refused_memory.sh` each in turn. Where that one is the test's own, for the files in memory or the words,
//! nothing is called.
use annbuild_commands::Fault;
use std::alloc::Global;
use std::sync::Wait;
use std::thread::Threads;
use top_calls::{ASKED, FOUR, FOUR_BY_FOUR, FOUR_LINE, NONE, Outcome, RUNS, Run, call};

/// Whether a call ended with code 8 and its line.
fn wanted_memory(ended: &Outcome) -> bool {
    ended.status.code == 8
        && ended.status.fault == Some(Fault::NoMemory)
        && ended.err.bytes() == b"annbuild: out of memory\n".as_slice()
}

/// Whether want of memory left what it may: all files as they were and nothing printed, or the first lines of a command that
/// stores none; or the whole new file, and a prefix of what is printed after it.
fn is_left(run: &Run, ended: &Outcome) -> bool {
    let out = ended.out.bytes();
    wanted_memory(ended)
        && run.out.starts_with(out)
        && out.len() < run.out.len()
        && (run.is_stored(ended) || run.is_untouched(ended) && out.is_empty())
}

/// Whether a run is done; none where it is neither that nor ends with want of memory and what that may leave. Where nothing is
/// called it isn't done.
fn is_done<R: Threads + Wait + Sync>(rt: &R, alloc: Global, run: &Run) -> Option<bool> {
    match run.done(rt, alloc, NONE) {
        Ok(ended) => {
            let is_done = run.is_done(&ended);
            (is_done || is_left(run, &ended)).then_some(is_done)
        }
        Err(_) => Some(false),
    }
}

/// Whether a run that is made twice ends as it may. One allocation alone is refused, so that one of the two is done.
fn is_lawful_twice<R: Threads + Wait + Sync>(rt: &R, alloc: Global, run: &Run) -> bool {
    let first = is_done(rt, alloc, run);
    let second = is_done(rt, alloc, run);
    first.is_some() && second.is_some() && (first == Some(true) || second == Some(true))
}

#[test]
fn each_run_that_wants_memory_leaves_all_as_it_was_or_a_whole_file(rt: HostRuntime) {
    for run in &RUNS {
        assert!(rt; is_lawful_twice(&rt, rt.alloc(), run), "{}", run.words);
    }
}

/// Whether a session ended as it may: done, or with want of memory and no index or a whole one.
fn has_lived(ended: &Outcome) -> bool {
    let index = ended.shelf.bytes("ann");
    let out = ended.out.bytes();
    let is_whole = index == Some(FOUR_BY_FOUR);
    if wanted_memory(ended) {
        is_whole || index.is_none() && out.is_empty()
    } else {
        ended.status.code == 0 && is_whole && out.starts_with(FOUR_LINE)
    }
}

/// Whether a session over more batches than one, whose lines are not decided, ends as it may.
fn lives<R: Threads + Wait + Sync>(rt: &R, alloc: Global) -> bool {
    let words =
        "live pts ann ask --order file --start first --degree 2 --beam 4 --alpha 1/1 --cap 4 --search 4 --k 1";
    let files = [("pts", FOUR), ("ask", ASKED)];
    match call(rt, alloc, words, &files, NONE) {
        Ok(ended) => has_lived(&ended),
        Err(_) => true,
    }
}

#[test]
fn a_session_that_wants_memory_leaves_no_index_or_a_whole_one(rt: HostRuntime) {
    assert!(rt; lives(&rt, rt.alloc()));
}
