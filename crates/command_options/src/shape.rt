//! The options of each command, and what the program does today.
ghost use Rattle.std.specs.Prelude.{◌≡◌};
ghost use Rattle.command_options.specs.Shapes.{is_exact, is_live, builds, shape_kind, own_options, options_of_kind, build_options, is_among, has_option, has_option_of_any, is_built};

use crate::{OptionName, Verb, name_of};
use ann_defs::Kind;

/// Whether a command has `--k` without a search list.
pub fn is_exact(verb: Verb) -> bool
    ensures { result ≡ is_exact verb }
{
    matches!(verb, Verb::Exact)
}

/// Whether a command builds one kind alone.
pub fn is_live(verb: Verb) -> bool
    ensures { result ≡ is_live verb }
{
    matches!(verb, Verb::Live)
}

/// Whether a command builds an index.
fn builds(verb: Verb) -> bool
    ensures { result ≡ builds verb }
{
    matches!(verb, Verb::Build | Verb::Trial | Verb::Live)
}

/// The kind by which a command has its options: the one that `--kind` says, in the commands that build any kind.
pub fn shape_kind(verb: Verb, kind: Kind) -> Kind
    ensures { result ≡ shape_kind verb kind }
{
    match verb {
        Verb::Build | Verb::Trial => kind,
        _ => Kind::Vamana,
    }
}

/// The options of each command that builds.
const BUILD_OPTIONS: [OptionName; 4] = [
    OptionName::Kind,
    OptionName::Workers,
    OptionName::Pool,
    OptionName::Seed,
];

/// The further options of a build of a kind.
fn options_of_kind(kind: Kind) -> &'static [OptionName]
    ensures { result.now ≡ options_of_kind kind }
{
    match kind {
        Kind::Vamana => &[
            OptionName::Order,
            OptionName::Start,
            OptionName::Degree,
            OptionName::Beam,
            OptionName::Alpha,
            OptionName::Cap,
            OptionName::Passes,
        ],
        Kind::Hnsw => &[
            OptionName::Order,
            OptionName::Degree,
            OptionName::Beam,
            OptionName::Cap,
            OptionName::Bits,
            OptionName::MaxLevel,
        ],
        Kind::Nnd => &[
            OptionName::Start,
            OptionName::Degree,
            OptionName::Alpha,
            OptionName::List,
            OptionName::Trees,
            OptionName::Leaf,
            OptionName::Rounds,
            OptionName::Floor,
        ],
    }
}

/// The options of a command beside those of a build.
fn own_options(verb: Verb) -> &'static [OptionName]
    ensures { result.now ≡ own_options verb }
{
    match verb {
        Verb::Build => &[OptionName::Format, OptionName::Type],
        Verb::Query | Verb::Recall | Verb::Without => &[
            OptionName::Workers,
            OptionName::Pool,
            OptionName::Search,
            OptionName::K,
            OptionName::Type,
        ],
        Verb::Check => &[OptionName::Type],
        Verb::Make => &[OptionName::Seed, OptionName::Count, OptionName::Dim],
        Verb::Trial => &[
            OptionName::Count,
            OptionName::Dim,
            OptionName::Queries,
            OptionName::Search,
            OptionName::K,
        ],
        Verb::Live => &[
            OptionName::Format,
            OptionName::Search,
            OptionName::K,
            OptionName::Callers,
            OptionName::Type,
        ],
        Verb::Exact => &[
            OptionName::Workers,
            OptionName::Pool,
            OptionName::K,
            OptionName::Type,
        ],
        Verb::Forget => &[
            OptionName::Workers,
            OptionName::Pool,
            OptionName::Alpha,
            OptionName::Type,
        ],
        Verb::Label => &[
            OptionName::Workers,
            OptionName::Pool,
            OptionName::Seed,
            OptionName::Order,
            OptionName::Degree,
            OptionName::Beam,
            OptionName::Alpha,
            OptionName::Cap,
            OptionName::Type,
        ],
        Verb::Find => &[
            OptionName::Workers,
            OptionName::Pool,
            OptionName::Search,
            OptionName::K,
            OptionName::Label,
            OptionName::Type,
        ],
    }
}

/// Whether an option is one of these.
fn is_among(option: OptionName, options: &[OptionName]) -> bool
    ensures { result ≡ is_among option options.now }
{
    let name = name_of(option);
    options.iter().any(|other| name == name_of(*other))
}

/// Whether a command has an option for a kind.
pub fn has_option(verb: Verb, kind: Kind, option: OptionName) -> bool
    ensures { result ≡ has_option verb kind option }
{
    if is_among(option, own_options(verb)) {
        return true;
    }
    builds(verb)
        && (is_among(option, &BUILD_OPTIONS)
            || is_among(option, options_of_kind(shape_kind(verb, kind))))
}

/// Whether a command has an option for some kind.
pub fn has_option_of_any(verb: Verb, option: OptionName) -> bool
    ensures { result ≡ has_option_of_any verb option }
{
    has_option(verb, Kind::Vamana, option)
        || has_option(verb, Kind::Hnsw, option)
        || has_option(verb, Kind::Nnd, option)
}

/// Whether the program has a command for a kind today. Others mean no request.
pub fn is_built(verb: Verb, kind: Kind) -> bool
    ensures { result ≡ is_built verb kind }
{
    match (verb, kind) {
        (Verb::Build | Verb::Trial | Verb::Query | Verb::Check | Verb::Make | Verb::Live, _) =>
            true,
        _ => false,
    }
}
