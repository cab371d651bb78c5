//! One call of the program over files in memory, and what stands after it.
use ann_shelf::{FreeGate, Gate, MemOut, MemShelf, NoMemory};
use annbuild_commands::{Status, annbuild};
use std::alloc::Global;
use std::sync::Wait;
use std::thread::Threads;

/// Which calls of the outside fail, by their numbers from 1, where 0 names none; and how many bytes one call moves.
#[derive(Clone, Copy)]
pub struct Failing {
    pub shelf: [u64; 2],
    pub out: [u64; 2],
    pub err: [u64; 2],
    /// The most bytes that a call of the shelf or of an output moves; 0 for no bound.
    pub piece: usize,
}

/// None fails, and each call moves all.
pub const NONE: Failing = Failing {
    shelf: [0, 0],
    out: [0, 0],
    err: [0, 0],
    piece: 0,
};

/// How a call ended, and what stands then.
#[derive(Drop)]
pub struct Outcome {
    pub status: Status,
    pub shelf: MemShelf,
    pub out: MemOut,
    pub err: MemOut,
}

/// The words of a text.
pub fn words_in(alloc: Global, text: &str) -> Result<Vec<String>, NoMemory> {
    let mut words = Vec::new(alloc);
    for word in text.split_whitespace() {
        words.push(String::from_str(alloc, word)?)?;
    }
    Ok(words)
}

/// A shelf with these files.
fn shelf_of(
    alloc: Global,
    files: &[(&str, &[u8])],
    failing: &Failing,
) -> Result<MemShelf, NoMemory> {
    let mut shelf = MemShelf::new(alloc);
    for (name, bytes) in files {
        shelf.put(name, bytes)?;
    }
    for number in failing.shelf {
        shelf.fail_call(number)?;
    }
    if failing.piece > 0 {
        shelf.set_piece(failing.piece);
    }
    Ok(shelf)
}

/// An output whose writes with these numbers fail.
fn out_of(alloc: Global, failing: [u64; 2], piece: usize) -> Result<MemOut, NoMemory> {
    let mut out = MemOut::new(alloc);
    for number in failing {
        out.fail_call(number)?;
    }
    if piece > 0 {
        out.set_piece(piece);
    }
    Ok(out)
}

/// Does what the words say over these files, with this gate.
pub fn call_at<R: Threads + Wait + Sync, G: Gate + Sync>(
    rt: &R,
    alloc: Global,
    text: &str,
    files: &[(&str, &[u8])],
    failing: Failing,
    gate: &G,
) -> Result<Outcome, NoMemory> {
    let words = words_in(alloc, text)?;
    let mut shelf = shelf_of(alloc, files, &failing)?;
    let mut out = out_of(alloc, failing.out, failing.piece)?;
    let mut err = out_of(alloc, failing.err, failing.piece)?;
    let status = annbuild(rt, alloc, &words, &mut shelf, &mut out, &mut err, gate);
    Ok(Outcome {
        status,
        shelf,
        out,
        err,
    })
}

/// The same with a gate whose calls do nothing.
pub fn call<R: Threads + Wait + Sync>(
    rt: &R,
    alloc: Global,
    text: &str,
    files: &[(&str, &[u8])],
    failing: Failing,
) -> Result<Outcome, NoMemory> {
    call_at(rt, alloc, text, files, failing, &FreeGate)
}
