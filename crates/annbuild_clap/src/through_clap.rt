//! A request, read by clap.
ghost use Rattle.std.specs.Prelude.{◌≡◌, true, IsSome, IfOk, IfSome};
ghost use Rattle.clap.specs.Words.{subcommand_of, subcommand_rows_of, takes};
ghost use Rattle.annbuild_words.specs.Asked.{command_of, HasNoMore};
ghost use Rattle.annbuild_words.specs.Parts.{texts};
ghost use Rattle.command_options.specs.Settings.{IsInRange};
ghost use Rattle.annbuild_clap.specs.Program.{command_in, program};

use crate::Parsed;
use crate::canonical::words_of;
use crate::program::matches_of;
use ann_shelf::NoMemory;
use annbuild_words::Request;
use clap::ArgMatches;
use command_options::read_verb;
use std::alloc::Global;

/// The request that the matches stand for.
fn request_in(alloc: Global, matches: &ArgMatches<'_>) -> Result<Parsed, NoMemory>
    requires some { IsSome (command_in (subcommand_rows_of matches.now)) }
    requires in_range { IfSome (command_in (subcommand_rows_of matches.now)) (λ c. IsInRange c.verb c.settings) }
    ensures { IfOk result (λ p. Some (p) ≡ command_in (subcommand_rows_of matches.now)) }
{
    let Some((name, found)) = matches.subcommand() else {
        unreachable!()
    };
    match read_verb(name) {
        Some(verb) => Parsed::of(alloc, found, verb),
        None => unreachable!(),
    }
}

/// Reads canonical words by clap.
fn parse_words(alloc: Global, words: &[String]) -> Result<Parsed, NoMemory>
    requires taken { takes program (texts words.now) ≡ true }
    requires some { IsSome (command_in (subcommand_of program (texts words.now))) }
    requires in_range { IfSome (command_in (subcommand_of program (texts words.now))) (λ c. IsInRange c.verb c.settings) }
    ensures { IfOk result (λ p. Some (p) ≡ command_in (subcommand_of program (texts words.now))) }
{
    match matches_of(alloc, words) {
        Ok(matches) => request_in(alloc, &matches),
        Err(_error) => Err(NoMemory),
    }
}

/// Reads a request by clap, from its canonical words. The file names and settings are those that clap's matches give,
/// and they are the request's. Fails only with `NoMemory`.
pub fn parse_by_clap(alloc: Global, request: &Request<'_>) -> Result<Parsed, NoMemory>
    requires in_range { IsInRange request.now.verb request.now.settings }
    requires no_more { HasNoMore (command_of request.now) }
    ensures { IfOk result (λ p. p ≡ command_of request.now) }
{
    // Seed and floor are numbers of 64 bits, as each that words write.
    prove!(request.settings.seed <= u64::MAX);
    prove!(request.settings.floor <= u64::MAX);
    let words = words_of(alloc, request)?;
    parse_words(alloc, &words)
}
