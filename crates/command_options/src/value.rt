//! The values of settings.
ghost use Rattle.std.specs.Prelude.{◌≡◌};
ghost use Rattle.command_options.specs.Forms.{default_value};
ghost use Rattle.command_options.specs.Settings.{number_or};

use crate::Form;
use ann_defs::{Element, Kind, OrderKind, StartKind, Way};

/// The value of a setting.
#[derive(Clone, Copy)]
pub enum Value {
    /// None is set, and other settings or the data decide.
    ByRule,
    Number(u64),
    Fraction { num: u64, den: u64 },
    KindIs(Kind),
    PoolIs(Way),
    OrderIs(OrderKind),
    StartIs(StartKind),
    ElementIs(Element),
}

/// The value where none is set.
pub fn default_of(form: Form) -> Value
    ensures { result ≡ default_value form }
{
    match form {
        Form::OfNumber { default: None, .. } => Value::ByRule,
        Form::OfNumber {
            default: Some(n),
            ..
        } => Value::Number(n),
        Form::OfFraction { num, den, .. } => Value::Fraction { num, den },
        Form::OfKind { default, .. } => Value::KindIs(default),
        Form::OfPool { default } => Value::PoolIs(default),
        Form::OfOrder { default } => Value::OrderIs(default),
        Form::OfStart { default } => Value::StartIs(default),
        Form::OfElement { default } => Value::ElementIs(default),
    }
}

/// The number of a value, or another where it has none.
pub fn number_of(value: Value, other: u64) -> u64
    ensures { result ≡ number_or other value }
{
    match value {
        Value::Number(n) => n,
        _ => other,
    }
}
