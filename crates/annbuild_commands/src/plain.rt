//! A request that is done by calls that return.
ghost use Rattle.std.specs.Prelude.{◌≡◌, false, map, string_bytes};
ghost use Rattle.annbuild_words.specs.Asked.{request_of};
ghost use Rattle.annbuild_lines.specs.Codes.{code_of};
ghost use Rattle.annbuild_commands.specs.Ending.{IsNoCommand, begins_live};
ghost use Rattle.annbuild_commands.specs.Promises.{Promises};

use crate::request::{do_plain, read_request};
use crate::told::settle;
use ann_shelf::{Gate, Out, Shelf};
use annbuild_lines::Status;
use std::alloc::Global;
use std::thread::Threads;

/// Does what the words ask for, where the first isn't `live`. It waits for nothing, so it always returns.
///
/// `words` are those after the program's own name. Where `build` ends with code 0, the index file holds, byte for byte,
/// the index that the definition gives for the points whose text the data file held, whatever the number of workers and
/// however their steps fell; where `query` does, the output gained the definition's line for each query. A fault is told
/// in one line on `err`.
pub fn run_plain<R: Threads + Sync, F: Shelf, O: Out, G: Gate + Sync>(
    rt: &R,
    alloc: Global,
    words: &[String],
    shelf: &mut F,
    out: &mut O,
    err: &mut O,
    gate: &G,
) -> Status
    requires { begins_live (map (λ w. string_bytes w) words.now) ≡ false }
    ensures code { result.code ≡ code_of result.fault }
    // For words that mean no command shelf and output are not touched, so nothing is read either.
    ensures untouched { IsNoCommand (request_of (map (λ w. string_bytes w) words.now)) → (shelf.new ≡ shelf.old) × (out.new ≡ out.old) }
    ensures promises { Promises (request_of (map (λ w. string_bytes w) words.now)) (F.shown shelf.old) (F.shown shelf.new) (O.got out.old) (O.got out.new) (O.got err.old) (O.got err.new) result.fault }
{
    match read_request(alloc, words) {
        Ok(parsed) => settle(err, do_plain(rt, alloc, &parsed, shelf, out, gate)),
        Err(fault) => settle(err, Err(fault)),
    }
}
