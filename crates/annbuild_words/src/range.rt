//! The settings' ranges.
ghost use Rattle.std.specs.Prelude.{◌≡◌};
ghost use Rattle.std.specs.Option.{option_or};
ghost use Rattle.command_options.specs.Settings.{kind_code};
ghost use Rattle.annbuild_words.specs.Rules.{outside, outside_range, outside_form};

use ann_defs::Kind;
use command_options::{Form, Range, SettingName, Value};

/// A setting that is out of its range.
#[derive(Clone, Copy)]
pub struct OutOfRange {
    pub name: SettingName,
    pub value: u64,
    pub least: u64,
    pub greatest: u64,
}

/// A number, if it is out of its range.
fn if_outside(name: SettingName, value: u64, least: u64, greatest: u64) -> Option<OutOfRange>
    ensures { result ≡ outside name value least greatest }
{
    if least <= value && value <= greatest {
        None
    } else {
        Some(OutOfRange {
            name,
            value,
            least,
            greatest,
        })
    }
}

/// A number of the table, if it is out of its range, where `--search` is `search`.
fn number_outside(range: Range, n: u64, search: u64) -> Option<OutOfRange>
    ensures { result ≡ outside_range range n search }
{
    match range {
        Range::Every => None,
        Range::Within {
            setting,
            least,
            greatest,
        } => if_outside(setting, n, least, greatest),
        Range::ToSearch { setting, least } => if_outside(setting, n, least, search),
    }
}

/// The number that stands for a kind of index.
fn code_of(kind: Kind) -> u64
    ensures { result ≡ kind_code kind }
{
    match kind {
        Kind::Vamana => 1,
        Kind::Hnsw => 2,
        Kind::Nnd => 3,
    }
}

/// A fraction, if it is out of its range: first the denominator, then the numerator.
fn fraction_outside(num: u64, den: u64, greatest: u64) -> Option<OutOfRange>
    ensures { result ≡ option_or (outside SettingName.AlphaDen den 1 greatest) (outside SettingName.AlphaNum num den greatest) }
{
    match if_outside(SettingName::AlphaDen, den, 1, greatest) {
        Some(outside) => Some(outside),
        None => if_outside(SettingName::AlphaNum, num, den, greatest),
    }
}

/// A value, if it is out of its range, where `--search` is `search`.
pub fn value_outside(form: Form, value: Value, search: u64) -> Option<OutOfRange>
    ensures { result ≡ outside_form form value search }
{
    match form {
        Form::OfNumber { range, .. } => match value {
            Value::Number(n) => number_outside(range, n, search),
            _ => None,
        },
        Form::OfFraction { greatest, .. } => match value {
            Value::Fraction { num, den } => fraction_outside(num, den, greatest),
            _ => None,
        },
        Form::OfKind { greatest, .. } => match value {
            Value::KindIs(kind) => if_outside(SettingName::Kind, code_of(kind), 1, greatest),
            _ => None,
        },
        _ => None,
    }
}
