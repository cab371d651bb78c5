//! The option table.

use ann_defs::Kind;
use command_options::{
    OPTIONS, OptionName, Value, Verb, default_of, form_of, has_option, roles_of,
};

/// Commands and kinds of index, and how many names and options they have.
static SHAPES: [(Verb, Kind, usize, usize); 16] = [
    (Verb::Build, Kind::Vamana, 2, 13),
    (Verb::Build, Kind::Hnsw, 2, 12),
    (Verb::Build, Kind::Nnd, 2, 14),
    (Verb::Query, Kind::Vamana, 3, 5),
    (Verb::Check, Kind::Vamana, 2, 1),
    (Verb::Make, Kind::Vamana, 1, 3),
    (Verb::Trial, Kind::Vamana, 0, 16),
    (Verb::Trial, Kind::Hnsw, 0, 15),
    (Verb::Trial, Kind::Nnd, 0, 17),
    (Verb::Live, Kind::Hnsw, 3, 16),
    (Verb::Exact, Kind::Vamana, 2, 4),
    (Verb::Recall, Kind::Vamana, 3, 5),
    (Verb::Forget, Kind::Vamana, 4, 4),
    (Verb::Without, Kind::Vamana, 4, 5),
    (Verb::Label, Kind::Vamana, 3, 9),
    (Verb::Find, Kind::Vamana, 4, 6),
];

/// How many options a command has for a kind of index.
fn options_of(verb: Verb, kind: Kind) -> usize {
    OPTIONS
        .iter()
        .filter(|option| has_option(verb, kind, **option))
        .count()
}

/// Whether a command has so many names, and so many options for a kind of index.
fn has_shape(verb: Verb, kind: Kind, names: usize, options: usize) -> bool {
    roles_of(verb).len() == names && options_of(verb, kind) == options
}

#[test]
fn shapes_of_all_commands(rt: HostRuntime) {
    for (verb, kind, names, options) in &SHAPES {
        assert!(rt;
            has_shape(*verb, *kind, *names, *options),
            "{verb:?} {kind:?}"
        );
    }
}

/// The default of an option, where it is a number.
fn default_number(verb: Verb, kind: Kind, option: OptionName) -> Option<u64> {
    match default_of(form_of(verb, kind, option)) {
        Value::Number(n) => Some(n),
        _ => None,
    }
}

/// Commands, kinds of index and options, and the defaults that are numbers.
static DEFAULTS: [(Verb, Kind, OptionName, Option<u64>); 6] = [
    (Verb::Build, Kind::Vamana, OptionName::Degree, Some(64)),
    (Verb::Build, Kind::Hnsw, OptionName::Degree, Some(16)),
    (Verb::Trial, Kind::Hnsw, OptionName::Degree, Some(16)),
    (Verb::Live, Kind::Hnsw, OptionName::Degree, Some(64)),
    (Verb::Query, Kind::Vamana, OptionName::K, None),
    (Verb::Exact, Kind::Vamana, OptionName::K, Some(10)),
];

#[test]
fn defaults_by_command_and_kind(rt: HostRuntime) {
    for (verb, kind, option, number) in &DEFAULTS {
        assert!(rt;
            default_number(*verb, *kind, *option) == *number,
            "{verb:?} {kind:?}"
        );
    }
}
