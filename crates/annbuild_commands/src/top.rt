//! The top call: what the words ask for, and its status.
ghost use Rattle.std.specs.Prelude.{◌≡◌, map, string_bytes};
ghost use Rattle.annbuild_words.specs.Asked.{request_of};
ghost use Rattle.annbuild_lines.specs.Codes.{code_of};
ghost use Rattle.annbuild_commands.specs.Ending.{IsNoCommand, begins_live};
ghost use Rattle.annbuild_commands.specs.Promises.{Promises};

use crate::beside::run_live;
use crate::plain::run_plain;
use ann_shelf::{Gate, Out, Shelf};
use annbuild_lines::Status;
use annbuild_words::Verb;
use command_options::verb_text;
use std::alloc::Global;
use std::sync::Wait;
use std::thread::Threads;

/// Whether the first word is the command that builds beside callers.
fn is_live(words: &[String]) -> bool
    ensures { result ≡ begins_live (map (λ w. string_bytes w) words.now) }
{
    match words {
        [] => false,
        [word, ..] => word.as_str() == verb_text(Verb::Live),
    }
}

/// Does what the words ask for, over any shelf, outputs and gate: by `run_live` where the first is `live`, else by
/// `run_plain`. Its clauses are theirs.
pub fn annbuild<R: Threads + Wait + Sync, F: Shelf, O: Out, G: Gate + Sync>(
    rt: &R,
    alloc: Global,
    words: &[String],
    shelf: &mut F,
    out: &mut O,
    err: &mut O,
    gate: &G,
) -> Status
    ensures code { result.code ≡ code_of result.fault }
    // For words that mean no command shelf and output are not touched, so nothing is read either.
    ensures untouched { IsNoCommand (request_of (map (λ w. string_bytes w) words.now)) → (shelf.new ≡ shelf.old) × (out.new ≡ out.old) }
    ensures promises { Promises (request_of (map (λ w. string_bytes w) words.now)) (F.shown shelf.old) (F.shown shelf.new) (O.got out.old) (O.got out.new) (O.got err.old) (O.got err.new) result.fault }
{
    if is_live(words) {
        run_live(rt, alloc, words, shelf, out, err, gate)
    } else {
        run_plain(rt, alloc, words, shelf, out, err, gate)
    }
}
