//! What the matches of a command hold.
ghost use Rattle.std.specs.Prelude.{◌≡◌, [], unwrap_or, IfOk, string_bytes};
ghost use Rattle.clap.specs.Words.{first_of, found_of, rows_of};
ghost use Rattle.annbuild_clap.specs.Program.{setting_in, file_in, kind_in_rows};

use crate::program::file_id;
use ann_defs::Kind;
use ann_shelf::NoMemory;
use annbuild_words::or_default;
use clap::ArgMatches;
use command_options::{OptionName, Value, Values, Verb, form_of, kind_in_value, long_of, roles_of};
use std::alloc::Global;

/// The matches of a command, which has options of a kind.
#[derive(Clone, Copy)]
pub(crate) struct Matches<'b, 'm> {
    pub found: &'b ArgMatches<'m>,
    pub verb: Verb,
    pub kind: Kind,
}

impl<'b, 'm> Values for Matches<'b, 'm> {
    ghost values = { λ m. setting_in m.verb m.kind (rows_of (found_of m.found.now)) };

    fn value(&self, option: OptionName) -> Value {
        let form = form_of(self.verb, self.kind, option);
        or_default(form, self.found.get_str(long_of(option)))
    }
}

/// The text of a file name.
fn name_in(alloc: Global, matches: &ArgMatches<'_>, name: &str) -> Result<String, NoMemory>
    ensures { IfOk result (λ file. string_bytes file ≡ unwrap_or (first_of name.now (rows_of (found_of matches.now))) []) }
{
    Ok(String::from_str(alloc, matches.get_str(name).unwrap_or(""))?)
}

/// The file name of a number, or the empty one.
pub(crate) fn file_name(
    alloc: Global,
    matches: &ArgMatches<'_>,
    verb: Verb,
    number: usize,
) -> Result<String, NoMemory>
    ensures { IfOk result (λ file. string_bytes file ≡ file_in verb (rows_of (found_of matches.now)) number) }
{
    match roles_of(verb).get(number) {
        Some(role) => name_in(alloc, matches, file_id(*role)),
        None => Ok(String::from_str(alloc, "")?),
    }
}

/// The kind that the matches say, or the default.
pub(crate) fn kind_said(matches: &ArgMatches<'_>, verb: Verb) -> Kind
    ensures { result ≡ kind_in_rows verb (rows_of (found_of matches.now)) }
{
    let given = Matches {
        found: matches,
        verb,
        kind: Kind::Vamana,
    };
    kind_in_value(given.value(OptionName::Kind))
}
