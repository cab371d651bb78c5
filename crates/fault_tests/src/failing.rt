//! Calls of the outside that fail, each in turn and each pair, in one run of every command and kind of index.
use annbuild_commands::{Fault, Role};
use std::alloc::Global;
use std::sync::Wait;
use std::thread::Threads;
use top_calls::{Failing, NONE, Outcome, RUNS, Run};

/// The bytes that a call moves at most: any number, and few.
static PIECES: [usize; 2] = [0, 7];

/// Whether a run ended with this code and line, and with nothing printed.
fn has_ended(ended: &Outcome, code: u8, line: &[u8]) -> bool {
    ended.status.code == code && ended.err.bytes() == line && ended.out.bytes().is_empty()
}

/// The place of a file that could not be read, 1 to 3 in the order of reading, or 4 for one that could not be written; the
/// status and the line.
fn told_of(fault: Fault) -> Option<(u8, u8, &'static [u8])> {
    match fault {
        Fault::Read { file: Role::Base } => Some((1, 4, b"annbuild: cannot read data\n")),
        Fault::Read { file: Role::Index } => Some((2, 4, b"annbuild: cannot read index\n")),
        Fault::Read {
            file: Role::Queries,
        } => Some((3, 4, b"annbuild: cannot read queries\n")),
        Fault::Write { file: Role::Index } => Some((4, 7, b"annbuild: cannot write index\n")),
        Fault::Write { file: Role::Base } => Some((4, 7, b"annbuild: cannot write data\n")),
        _ => None,
    }
}

/// The place of the file that a run could not read or write; none where the run did not end with that file's status and line, or
/// left another file than before.
fn refused_at(run: &Run, ended: &Outcome) -> Option<u8> {
    let (place, code, line) = told_of(ended.status.fault?)?;
    (has_ended(ended, code, line) && run.is_untouched(ended)).then_some(place)
}

/// How many calls of the shelf a clean run makes; none where it isn't done.
fn clean_calls<R: Threads + Wait + Sync>(
    rt: &R,
    alloc: Global,
    run: &Run,
    piece: usize,
) -> Option<u64> {
    let clean = run.done(rt, alloc, Failing { piece, ..NONE }).ok()?;
    run.is_done(&clean).then_some(clean.shelf.calls())
}

/// Where a run is refused whose two calls of the shelf fail, and how many it made then; none where it isn't as it has to be.
fn refused_after<R: Threads + Wait + Sync>(
    rt: &R,
    alloc: Global,
    run: &Run,
    shelf: [u64; 2],
    piece: usize,
) -> Option<(u8, u64)> {
    let failing = Failing {
        shelf,
        piece,
        ..NONE
    };
    let ended = run.done(rt, alloc, failing).ok()?;
    match refused_at(run, &ended) {
        Some(place) => Some((place, ended.shelf.calls())),
        None => None,
    }
}

/// Where a run is refused whose last call of the shelf fails, 0 where there is no call; none where one that fails, alone or with
/// a later one, isn't told, another follows it, or a file is refused before one that was read earlier.
fn last_refusal<R: Threads + Wait + Sync>(
    rt: &R,
    alloc: Global,
    run: &Run,
    piece: usize,
) -> Option<u8> {
    let calls = clean_calls(rt, alloc, run, piece)?;
    let mut last = 0u8;
    for first in 1..=calls {
        for second in first..=calls {
            match refused_after(rt, alloc, run, [first, second], piece) {
                Some((place, made)) if place >= last && made == first => last = place,
                _ => return None,
            }
        }
    }
    Some(last)
}

#[test]
fn each_failing_call_and_each_pair_is_told_and_leaves_all_files(rt: HostRuntime) {
    for run in &RUNS {
        for piece in &PIECES {
            let last = last_refusal(&rt, rt.alloc(), run, *piece);
            assert!(rt; last == Some(run.last), "{} in {piece}", run.words);
        }
    }
}

/// Whether a run whose output failed left the whole file, and a prefix of its lines.
fn is_cut(run: &Run, ended: &Outcome) -> bool {
    ended.status.code == 7
        && ended.status.fault == Some(Fault::Write { file: Role::Output })
        && ended.err.bytes() == b"annbuild: cannot write output\n".as_slice()
        && run.is_stored(ended)
        && run.out.starts_with(ended.out.bytes())
        && ended.out.bytes().len() < run.out.len()
}

/// Whether a run is cut whose write of the output with this number fails, and the next one; none where it is neither cut nor
/// done.
fn is_cut_at<R: Threads + Wait + Sync>(
    rt: &R,
    alloc: Global,
    run: &Run,
    number: u64,
    piece: usize,
) -> Option<bool> {
    let out = [number, number.wrapping_add(1)];
    match run.done(rt, alloc, Failing { out, piece, ..NONE }) {
        Ok(ended) => {
            let is_cut = is_cut(run, &ended);
            (is_cut || run.is_done(&ended)).then_some(is_cut)
        }
        Err(_) => None,
    }
}

/// How many writes of the output a run makes, by those that cut it: the first ones of sixty; none where another one does.
fn writes_of<R: Threads + Wait + Sync>(
    rt: &R,
    alloc: Global,
    run: &Run,
    piece: usize,
) -> Option<u64> {
    let mut failed = 0u64;
    for number in 1..=60u64 {
        match is_cut_at(rt, alloc, run, number, piece) {
            Some(true) if failed.wrapping_add(1) == number => failed = number,
            Some(false) => {}
            _ => return None,
        }
    }
    Some(failed)
}

#[test]
fn each_failing_write_of_the_output_leaves_whole_files_and_a_prefix(rt: HostRuntime) {
    for run in &RUNS {
        for piece in &PIECES {
            let writes = writes_of(&rt, rt.alloc(), run, *piece).unwrap_or(0);
            assert!(rt; writes >= 1 && writes < 60, "{}", run.words);
        }
    }
}

/// Whether a run whose first call of the shelf fails, and this write of the error stream, ends as another one whose error stream
/// doesn't fail, but for the line.
fn is_told_in_part<R: Threads + Wait + Sync>(
    rt: &R,
    alloc: Global,
    run: &Run,
    told: &Outcome,
    number: u64,
) -> bool {
    let failing = Failing {
        shelf: [1, 0],
        out: [0, 0],
        err: [number, 0],
        piece: 7,
    };
    match run.done(rt, alloc, failing) {
        Ok(ended) => {
            ended.status == told.status
                && told.err.bytes().starts_with(ended.err.bytes())
                && ended.err.bytes().len() as u64 == number.wrapping_sub(1).wrapping_mul(7)
                && run.is_untouched(&ended)
                && ended.out.bytes().is_empty()
        }
        Err(_) => false,
    }
}

/// Whether a run whose first call of the shelf fails ends so where each of the first writes of the error stream fails too.
fn is_told_alike<R: Threads + Wait + Sync>(rt: &R, alloc: Global, run: &Run) -> bool {
    let shelf = [1, 0];
    let Ok(told) = run.done(rt, alloc, Failing { shelf, ..NONE }) else {
        return false;
    };
    is_told_in_part(rt, alloc, run, &told, 1)
        && is_told_in_part(rt, alloc, run, &told, 2)
        && is_told_in_part(rt, alloc, run, &told, 3)
}

#[test]
fn a_failing_error_stream_changes_nothing_but_its_line(rt: HostRuntime) {
    for run in &RUNS {
        assert!(rt;
            run.last == 0 || is_told_alike(&rt, rt.alloc(), run),
            "{}",
            run.words
        );
    }
}
