//! The options, in the order of the option table, and their names.
ghost use Rattle.std.specs.Prelude.{◌≡◌, ◌∷◌};
ghost use Rattle.command_options.specs.Options.{option_name, long_name};

/// An option.
#[derive(Clone, Copy)]
pub enum OptionName {
    Kind,
    Workers,
    Pool,
    Seed,
    Order,
    Start,
    Degree,
    Beam,
    Alpha,
    Cap,
    Passes,
    Bits,
    MaxLevel,
    List,
    Trees,
    Leaf,
    Rounds,
    Floor,
    Format,
    Count,
    Dim,
    Queries,
    Search,
    K,
    Callers,
    Label,
    Type,
}

/// All options, in the order in which they are checked.
pub const OPTIONS: [OptionName; 27] = [
    OptionName::Kind,
    OptionName::Workers,
    OptionName::Pool,
    OptionName::Seed,
    OptionName::Order,
    OptionName::Start,
    OptionName::Degree,
    OptionName::Beam,
    OptionName::Alpha,
    OptionName::Cap,
    OptionName::Passes,
    OptionName::Bits,
    OptionName::MaxLevel,
    OptionName::List,
    OptionName::Trees,
    OptionName::Leaf,
    OptionName::Rounds,
    OptionName::Floor,
    OptionName::Format,
    OptionName::Count,
    OptionName::Dim,
    OptionName::Queries,
    OptionName::Search,
    OptionName::K,
    OptionName::Callers,
    OptionName::Label,
    OptionName::Type,
];

/// The name of an option, as words write it.
pub fn name_of(option: OptionName) -> &'static str
    ensures name { result.now ≡ option_name option }
    ensures dashed { result.now ≡ 45 ∷ 45 ∷ long_name option }
{
    match option {
        OptionName::Kind => "--kind",
        OptionName::Workers => "--workers",
        OptionName::Pool => "--pool",
        OptionName::Seed => "--seed",
        OptionName::Order => "--order",
        OptionName::Start => "--start",
        OptionName::Degree => "--degree",
        OptionName::Beam => "--beam",
        OptionName::Alpha => "--alpha",
        OptionName::Cap => "--cap",
        OptionName::Passes => "--passes",
        OptionName::Bits => "--bits",
        OptionName::MaxLevel => "--max-level",
        OptionName::List => "--list",
        OptionName::Trees => "--trees",
        OptionName::Leaf => "--leaf",
        OptionName::Rounds => "--rounds",
        OptionName::Floor => "--floor",
        OptionName::Format => "--format",
        OptionName::Count => "--count",
        OptionName::Dim => "--dim",
        OptionName::Queries => "--queries",
        OptionName::Search => "--search",
        OptionName::K => "--k",
        OptionName::Callers => "--callers",
        OptionName::Label => "--label",
        OptionName::Type => "--type",
    }
}

/// The same without the dashes.
pub fn long_of(option: OptionName) -> &'static str
    ensures { result.now ≡ long_name option }
{
    let Some(rest) = name_of(option).strip_prefix('-') else {
        unreachable!()
    };
    let Some(name) = rest.strip_prefix('-') else {
        unreachable!()
    };
    name
}
