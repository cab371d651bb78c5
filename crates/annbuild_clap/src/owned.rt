//! A request that clap has read.
ghost use Rattle.std.specs.Prelude.{◌≡◌, IfOk};
ghost use Rattle.clap.specs.Words.{found_of, rows_of};
ghost use Rattle.annbuild_words.specs.Asked.{command_of};
ghost use Rattle.command_options.specs.Settings.{settings_of, IsInRange};
ghost use Rattle.annbuild_clap.specs.Program.{setting_in, kind_in_rows, command_by};

use crate::found::{Matches, file_name, kind_said};
use ann_shelf::NoMemory;
use annbuild_words::{Names, Request, Settings, Verb};
use clap::ArgMatches;
use command_options::settings_of;
use std::alloc::Global;
use std::marker::Model;

/// A request with file names of its own, as clap's matches give it: there is no other way to make one.
///
/// A contract sees the command that it stands for.
#[derive(Drop)]
pub struct Parsed {
    verb: Verb,
    first: String,
    second: String,
    third: String,
    fourth: String,
    settings: Settings,
}

impl Model for Parsed {
    ghost use Rattle.std.specs.Prelude.{string_bytes};
    ghost use Rattle.annbuild_words.specs.Asked.{Command};

    ghost Value = { Command };

    ghost view = { λ p. record { verb = p.verb; first = string_bytes p.first; second = string_bytes p.second; third = string_bytes p.third; fourth = string_bytes p.fourth; settings = p.settings } };
}

impl Parsed {
    // The command that the matches of a command stand for.
    pub(crate) fn of(
        alloc: Global,
        matches: &ArgMatches<'_>,
        verb: Verb,
    ) -> Result<Parsed, NoMemory>
        requires { IsInRange verb (settings_of (setting_in verb (kind_in_rows verb (rows_of (found_of matches.now))) (rows_of (found_of matches.now)))) }
        ensures { IfOk result (λ p. p ≡ command_by verb (rows_of (found_of matches.now))) }
    {
        let kind = kind_said(matches, verb);
        let first = file_name(alloc, matches, verb, 0)?;
        let second = file_name(alloc, matches, verb, 1)?;
        let third = file_name(alloc, matches, verb, 2)?;
        let fourth = file_name(alloc, matches, verb, 3)?;
        let given = Matches {
            found: matches,
            verb,
            kind,
        };
        let settings = settings_of(verb, &given);
        Ok(Parsed {
            verb,
            first,
            second,
            third,
            fourth,
            settings,
        })
    }

    /// The request.
    pub fn request(&self) -> Request<'_>
        ensures { command_of result ≡ self.entry.now }
    {
        Request {
            verb: self.verb,
            names: Names {
                first: self.first.as_str(),
                second: self.second.as_str(),
                third: self.third.as_str(),
                fourth: self.fourth.as_str(),
            },
            settings: self.settings,
        }
    }
}
