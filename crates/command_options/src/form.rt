//! The kinds of values of the options, with their defaults and ranges.
ghost use Rattle.std.specs.Prelude.{◌≡◌, Some};
ghost use Rattle.command_options.specs.Shapes.{is_exact};
ghost use Rattle.command_options.specs.Forms.{default_degree, greatest_degree, form_of_k, option_form};

use crate::shape::{is_exact, is_live, shape_kind};
use crate::{OptionName, SettingName, Verb};
use ann_defs::{
    Element, Kind, MAX_BEAM, MAX_CALLERS, MAX_DEGREE, MAX_DIM, MAX_POINTS, MAX_WORKERS, OrderKind,
    StartKind, Way,
};

/// The numbers that an option may set.
#[derive(Clone, Copy)]
pub enum Range {
    Every,
    Within {
        setting: SettingName,
        least: u64,
        greatest: u64,
    },
    /// From `least` to the value of `--search`.
    ToSearch {
        setting: SettingName,
        least: u64,
    },
}

/// The kind of an option's value, with its default and its range.
#[derive(Clone, Copy)]
pub enum Form {
    /// A number. Where no default is given, other settings or the data decide.
    OfNumber { default: Option<u64>, range: Range },
    /// Two numbers: a denominator from 1 to `greatest`, and a numerator from the denominator to `greatest`.
    OfFraction { num: u64, den: u64, greatest: u64 },
    /// The kind of an index, of which the code is at most `greatest`.
    OfKind { default: Kind, greatest: u64 },
    OfPool { default: Way },
    OfOrder { default: OrderKind },
    OfStart { default: StartKind },
    OfElement { default: Element },
}

/// A number within bounds.
fn number(default: u64, setting: SettingName, least: u64, greatest: u64) -> Form
    ensures { result ≡ Form.OfNumber (Some default) (Range.Within setting least greatest) }
{
    Form::OfNumber {
        default: Some(default),
        range: Range::Within {
            setting,
            least,
            greatest,
        },
    }
}

/// Any number.
fn any_number(default: u64) -> Form
    ensures { result ≡ Form.OfNumber (Some default) Range.Every }
{
    Form::OfNumber {
        default: Some(default),
        range: Range::Every,
    }
}

/// The length of a row, by the kind of the index.
fn degree_form(kind: Kind) -> Form
    ensures { result ≡ Form.OfNumber (Some (default_degree kind)) (Range.Within SettingName.Degree 1 (greatest_degree kind)) }
{
    match kind {
        Kind::Hnsw => number(16, SettingName::Degree, 1, 64),
        _ => number(64, SettingName::Degree, 1, u64::from(MAX_DEGREE)),
    }
}

/// The number of answers: without a search list any number that one may have.
fn k_form(verb: Verb) -> Form
    ensures { result ≡ form_of_k (is_exact verb) }
{
    if is_exact(verb) {
        return number(10, SettingName::K, 1, u64::from(MAX_BEAM));
    }
    Form::OfNumber {
        default: None,
        range: Range::ToSearch {
            setting: SettingName::K,
            least: 1,
        },
    }
}

/// The form of an option of a command and a kind.
pub fn form_of(verb: Verb, kind: Kind, option: OptionName) -> Form
    ensures { result ≡ option_form verb kind option }
{
    match option {
        OptionName::Kind => Form::OfKind {
            default: Kind::Vamana,
            greatest: if is_live(verb) { 1 } else { 3 },
        },
        OptionName::Workers => number(4, SettingName::Workers, 1, u64::from(MAX_WORKERS)),
        OptionName::Pool => Form::OfPool {
            default: Way::Stealing,
        },
        OptionName::Seed => any_number(0),
        OptionName::Order => Form::OfOrder {
            default: OrderKind::Seeded,
        },
        OptionName::Start => Form::OfStart {
            default: StartKind::Medoid,
        },
        OptionName::Degree => degree_form(shape_kind(verb, kind)),
        OptionName::Beam => number(128, SettingName::Beam, 1, u64::from(MAX_BEAM)),
        OptionName::Alpha => Form::OfFraction {
            num: 12,
            den: 10,
            greatest: 1000,
        },
        OptionName::Cap => Form::OfNumber {
            default: None,
            range: Range::Within {
                setting: SettingName::Cap,
                least: 1,
                greatest: u64::from(MAX_POINTS),
            },
        },
        OptionName::Passes => number(1, SettingName::Passes, 1, 2),
        OptionName::Bits => number(4, SettingName::Bits, 1, 8),
        OptionName::MaxLevel => number(15, SettingName::MaxLevel, 0, 15),
        OptionName::List => number(40, SettingName::List, 1, 128),
        OptionName::Trees => number(8, SettingName::Trees, 1, 64),
        OptionName::Leaf => number(64, SettingName::Leaf, 2, 1024),
        OptionName::Rounds => number(10, SettingName::RoundCount, 0, 64),
        OptionName::Floor => any_number(0),
        OptionName::Format => number(1, SettingName::Format, 1, 2),
        OptionName::Count => number(1000, SettingName::Count, 1, u64::from(MAX_POINTS)),
        OptionName::Dim => number(16, SettingName::Dim, 1, u64::from(MAX_DIM)),
        OptionName::Queries => number(100, SettingName::QueryCount, 1, 4096),
        OptionName::Search => number(64, SettingName::Search, 1, u64::from(MAX_BEAM)),
        OptionName::K => k_form(verb),
        OptionName::Callers => number(2, SettingName::Callers, 1, u64::from(MAX_CALLERS)),
        OptionName::Label => number(0, SettingName::Label, 0, 63),
        OptionName::Type => Form::OfElement {
            default: Element::U8,
        },
    }
}
