//! `live`: the worked session, and one of one point.
use ann_shelf::{FreeGate, Gate, NoMemory};
use std::alloc::Global;
use std::sync::Wait;
use std::thread::Threads;
use top_calls::{ASKED, FOUR, FOUR_BY_FOUR, FOUR_LINE, NONE, Outcome, call_at, holds, tells};

/// The line of each query in the graph after each of the three batches.
static FIRST: [&[u8]; 3] = [b"live 0 1 0:144\n", b"live 0 2 1:4\n", b"live 0 3 1:4\n"];

static SECOND: [&[u8]; 3] = [
    b"live 1 1 0:900\n",
    b"live 1 2 1:400\n",
    b"live 1 3 2:100\n",
];

/// The answers in the last graph.
const LAST: &[u8] = b"last 0 3 1:4\nlast 1 3 2:100\n";

/// The batch whose line a text begins with, and what follows it.
fn told<'t>(text: &'t [u8], lines: &[&[u8]; 3]) -> Option<(u32, &'t [u8])> {
    let mut batch = 0u32;
    for line in lines {
        batch = batch.wrapping_add(1);
        if let Some(rest) = text.strip_prefix(*line) {
            return Some((batch, rest));
        }
    }
    None
}

/// The batches of the two live lines of the worked session, where all lines are its own.
pub(crate) fn batches_of(ended: &Outcome) -> Option<(u32, u32)> {
    let lines = ended.out.bytes().strip_prefix(FOUR_LINE)?;
    let (first, lines) = told(lines, &FIRST)?;
    let (second, lines) = told(lines, &SECOND)?;
    if lines == LAST {
        Some((first, second))
    } else {
        None
    }
}

/// The worked session over this pool, with so many callers and this gate.
pub(crate) fn session<R: Threads + Wait + Sync, G: Gate + Sync>(
    rt: &R,
    alloc: Global,
    pool: &str,
    callers: u32,
    gate: &G,
) -> Result<Outcome, NoMemory> {
    let words = format!(in alloc;
        "live pts ann ask --order file --start first --degree 2 --beam 4 --alpha 1/1 --cap 4 --search 4 --k 1 --callers {callers} --pool {pool}"
    )?;
    let files = [("pts", FOUR), ("ask", ASKED)];
    call_at(rt, alloc, words.as_str(), &files, NONE, gate)
}

/// Whether a worked session is done and leaves its files.
pub(crate) fn is_done(ended: &Outcome) -> bool {
    ended.status.code == 0
        && ended.err.bytes().is_empty()
        && holds(
            &ended.shelf,
            &[("ann", FOUR_BY_FOUR), ("pts", FOUR), ("ask", ASKED)],
        )
}

/// Whether a session tells its lines. One caller's second answer is of no earlier batch than its first.
fn is_told<R: Threads + Wait + Sync>(rt: &R, alloc: Global, pool: &str, callers: u32) -> bool {
    let Ok(ended) = session(rt, alloc, pool, callers, &FreeGate) else {
        return false;
    };
    match batches_of(&ended) {
        Some((first, second)) => is_done(&ended) && (callers != 1 || first <= second),
        None => false,
    }
}

#[test]
fn a_worked_session_tells_of_whole_batches_and_of_the_last_graph(rt: HostRuntime) {
    for pool in ["steal", "rayon", "serial"] {
        for callers in [1u32, 2, 16] {
            assert!(rt; is_told(&rt, rt.alloc(), pool, callers), "{pool} {callers}");
        }
    }
}

#[test]
fn a_session_of_one_point_has_one_batch(rt: HostRuntime) {
    let files: [(&str, &[u8]); 2] = [
        ("pts", b"\x01\0\0\0\x01\0\0\0\x07"),
        ("ask", b"\x01\0\0\0\x01\0\0\0\x09"),
    ];
    let lines =
        b"built vamana count 1 dim 1 degree 64 start 0 layers 1 edges 0\nlive 0 1 0:4\nlast 0 1 0:4\n".as_slice();
    assert!(rt;
        tells(
            &rt,
            rt.alloc(),
            "live pts ann ask",
            &files,
            0,
            lines,
            &files
        )
    );
}
