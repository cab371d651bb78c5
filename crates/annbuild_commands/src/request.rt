//! What words ask for, and the commands that do it and wait for nothing.
ghost use Rattle.std.specs.Prelude.{◌≡◌, Some, false, map, IfOk, IfErr, string_bytes};
ghost use Rattle.ann_shelf.specs.Shown.{Shown};
ghost use Rattle.ann_shelf.specs.Written.{Got};
ghost use Rattle.annbuild_words.specs.Asked.{request_of, command_of, IsAllowed};
ghost use Rattle.annbuild_words.specs.Asked.Meaning.{Means};
ghost use Rattle.command_options.specs.Shapes.{is_live};
ghost use Rattle.command_shapes.specs.Ends.{Ends, fault_in};
ghost use Rattle.annbuild_commands.specs.Commands.{doing_of};
ghost use Rattle.annbuild_commands.specs.Ending.{words_fault};
ghost use Rattle.annbuild_commands.specs.Promises.{IsAnswered};

use crate::build::build;
use crate::check::check;
use crate::make::make;
use crate::query::query;
use crate::trial::trial;
use ann_shelf::{Gate, Out, Shelf};
use annbuild_clap::{Parsed, parse_by_clap};
use annbuild_lines::Fault;
use annbuild_words::{Asked, Request, Verb, read_words};
use std::alloc::Global;
use std::thread::Threads;

/// The request that words mean, or the fault that they are.
fn requested(words: &[String]) -> Result<Request<'_>, Fault>
    ensures means { IfOk result (λ r. request_of (map (λ w. string_bytes w) words.now) ≡ Means (command_of r)) }
    ensures allowed { IfOk result (λ r. IsAllowed (command_of r)) }
    ensures fault { IfErr result (λ f. words_fault (request_of (map (λ w. string_bytes w) words.now)) ≡ Some f) }
{
    match read_words(words) {
        Asked::Nothing => Err(Fault::Usage),
        Asked::Outside {
            name,
            value,
            least,
            greatest,
        } => Err(Fault::Setting {
            name,
            value,
            least,
            greatest,
        }),
        Asked::For(request) => Ok(request),
    }
}

/// Reads the request that words mean. File names and settings are taken from what clap makes of the request's words.
///
/// A fault is what the words are answered by, whatever shelf and output are: they are not touched.
pub(crate) fn read_request(alloc: Global, words: &[String]) -> Result<Parsed, Fault>
    ensures means { IfOk result (λ p. request_of (map (λ w. string_bytes w) words.now) ≡ Means p) }
    ensures allowed { IfOk result (λ p. IsAllowed p) }
    ensures answered { IfErr result (λ f. (shown : Shown) (had : Got) → IsAnswered (request_of (map (λ w. string_bytes w) words.now)) shown shown had had (Some f)) }
{
    let request = requested(words)?;
    let parsed = parse_by_clap(alloc, &request)?;
    Ok(parsed)
}

/// Does what is asked for, by a command that waits for nothing. How it ends is said once of every command, by `Ends`.
pub(crate) fn do_plain<R: Threads + Sync, F: Shelf, O: Out, G: Gate + Sync>(
    rt: &R,
    alloc: Global,
    parsed: &Parsed,
    shelf: &mut F,
    out: &mut O,
    gate: &G,
) -> Result<(), Fault>
    requires allowed { IsAllowed parsed.now }
    requires plain { is_live parsed.now.verb ≡ false }
    ensures { Ends (doing_of parsed.now) (F.shown shelf.old) (F.shown shelf.new) (O.got out.old) (O.got out.new) (fault_in result) }
{
    let request = &parsed.request();
    match request.verb {
        Verb::Build => build(rt, alloc, request, shelf, out, gate),
        Verb::Query => query(rt, alloc, request, shelf, out, gate),
        Verb::Check => check(alloc, request, shelf, out),
        Verb::Make => make(alloc, request, shelf, out),
        Verb::Trial => trial(rt, alloc, &request.settings, out, gate),
        _ => unreachable!(),
    }
}
