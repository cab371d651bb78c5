//! A request that is done by callers beside a builder, which may wait.
ghost use Rattle.std.specs.Prelude.{◌≡◌, true, map, string_bytes};
ghost use Rattle.annbuild_words.specs.Asked.{request_of};
ghost use Rattle.annbuild_lines.specs.Codes.{code_of};
ghost use Rattle.annbuild_commands.specs.Ending.{IsNoCommand, begins_live};
ghost use Rattle.annbuild_commands.specs.Promises.{Promises};

use crate::live::live;
use crate::request::read_request;
use crate::told::settle;
use ann_shelf::{Gate, Out, Shelf};
use annbuild_lines::Status;
use std::alloc::Global;
use std::sync::Wait;
use std::thread::Threads;

/// Does what the words ask for, where the first is `live`. It may wait, so its promise holds if it returns.
///
/// Where `live` ends with code 0, the index file is the one that `build` writes; and each live line is the definition's
/// answer in the graph after the batch whose number it has, a number that is never below that of the same caller's query
/// before. A fault is told in one line on `err`.
pub fn run_live<R: Threads + Wait + Sync, F: Shelf, O: Out, G: Gate + Sync>(
    rt: &R,
    alloc: Global,
    words: &[String],
    shelf: &mut F,
    out: &mut O,
    err: &mut O,
    gate: &G,
) -> Status
    requires { begins_live (map (λ w. string_bytes w) words.now) ≡ true }
    ensures code { result.code ≡ code_of result.fault }
    // For words that mean no command shelf and output are not touched, so nothing is read either.
    ensures untouched { IsNoCommand (request_of (map (λ w. string_bytes w) words.now)) → (shelf.new ≡ shelf.old) × (out.new ≡ out.old) }
    ensures promises { Promises (request_of (map (λ w. string_bytes w) words.now)) (F.shown shelf.old) (F.shown shelf.new) (O.got out.old) (O.got out.new) (O.got err.old) (O.got err.new) result.fault }
{
    match read_request(alloc, words) {
        Ok(parsed) => {
            let done = live(rt, alloc, &parsed.request(), shelf, out, gate);
            settle(err, done)
        }
        Err(fault) => settle(err, Err(fault)),
    }
}
