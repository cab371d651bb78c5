//! The commands, their names, and the files that their words name.
ghost use Rattle.std.specs.Prelude.{◌≡◌};
ghost use Rattle.command_options.specs.Verbs.{verb_name, verb_in, roles_of};

use crate::Role;
use crate::names::{Named, find_named};

/// A command.
#[derive(Clone, Copy, Debug, PartialEq, Eq)]
pub enum Verb {
    Build,
    Query,
    Check,
    Make,
    Trial,
    Live,
    Exact,
    Recall,
    Forget,
    Without,
    Label,
    Find,
}

/// All commands.
pub const VERBS: [Verb; 12] = [
    Verb::Build,
    Verb::Query,
    Verb::Check,
    Verb::Make,
    Verb::Trial,
    Verb::Live,
    Verb::Exact,
    Verb::Recall,
    Verb::Forget,
    Verb::Without,
    Verb::Label,
    Verb::Find,
];

/// The name of a command.
pub fn verb_text(verb: Verb) -> &'static str
    ensures { result.now ≡ verb_name verb }
{
    match verb {
        Verb::Build => "build",
        Verb::Query => "query",
        Verb::Check => "check",
        Verb::Make => "make",
        Verb::Trial => "trial",
        Verb::Live => "live",
        Verb::Exact => "exact",
        Verb::Recall => "recall",
        Verb::Forget => "forget",
        Verb::Without => "without",
        Verb::Label => "label",
        Verb::Find => "find",
    }
}

impl Named for Verb {
    ghost name_of = { verb_name };

    fn text(&self) -> &'static str {
        verb_text(*self)
    }
}

/// The command that a word names.
pub fn read_verb(word: &str) -> Option<Verb>
    ensures { result ≡ verb_in word.now }
{
    find_named(&VERBS, word)
}

/// The files that a command's words name, in order.
pub fn roles_of(verb: Verb) -> &'static [Role]
    ensures { result.now ≡ roles_of verb }
{
    match verb {
        Verb::Build => &[Role::Base, Role::Index],
        Verb::Query => &[Role::Base, Role::Index, Role::Queries],
        Verb::Check => &[Role::Base, Role::Index],
        Verb::Make => &[Role::Base],
        Verb::Trial => &[],
        Verb::Live => &[Role::Base, Role::Index, Role::Queries],
        Verb::Exact => &[Role::Base, Role::Queries],
        Verb::Recall => &[Role::Base, Role::Index, Role::Queries],
        Verb::Forget => &[Role::Base, Role::Index, Role::Gone, Role::Fresh],
        Verb::Without => &[Role::Base, Role::Index, Role::Gone, Role::Queries],
        Verb::Label => &[Role::Base, Role::Labels, Role::Index],
        Verb::Find => &[Role::Base, Role::Labels, Role::Index, Role::Queries],
    }
}
