//! The values that words write.
ghost use Rattle.std.specs.Prelude.{◌≡◌};
ghost use Rattle.std.specs.Option.{option_copied};
ghost use Rattle.annbuild_words.specs.ValueTexts.{value_or_default, value_in};

use crate::number::{fraction_in, number_in};
use ann_defs::{Element, Kind, OrderKind, StartKind, Way};
use command_options::{Form, Value, default_of, find_named};

/// The value that a word writes.
#[tactic(auto, unfolding(crate::specs::ValueTexts::value_in))]
pub fn read_value(form: Form, text: &str) -> Option<Value>
    ensures { result ≡ value_in form text.now }
{
    match form {
        Form::OfNumber { .. } => match number_in(text) {
            Some(n) => Some(Value::Number(n)),
            None => None,
        },
        Form::OfFraction { .. } => match fraction_in(text) {
            Some((num, den)) => Some(Value::Fraction { num, den }),
            None => None,
        },
        Form::OfKind { .. } => match find_named(&[Kind::Vamana, Kind::Hnsw, Kind::Nnd], text) {
            Some(kind) => Some(Value::KindIs(kind)),
            None => None,
        },
        Form::OfPool { .. } => match find_named(&[Way::Serial, Way::Shares, Way::Stealing], text) {
            Some(way) => Some(Value::PoolIs(way)),
            None => None,
        },
        Form::OfOrder { .. } => match find_named(&[OrderKind::File, OrderKind::Seeded], text) {
            Some(kind) => Some(Value::OrderIs(kind)),
            None => None,
        },
        Form::OfStart { .. } => match find_named(&[StartKind::First, StartKind::Medoid], text) {
            Some(kind) => Some(Value::StartIs(kind)),
            None => None,
        },
        Form::OfElement { .. } => match find_named(&[Element::U8, Element::I8], text) {
            Some(element) => Some(Value::ElementIs(element)),
            None => None,
        },
    }
}

/// The value that a text writes, if there is one and it does, or the default.
pub fn or_default(form: Form, text: Option<&str>) -> Value
    ensures { result ≡ value_or_default form (option_copied text.entry) }
{
    match text {
        Some(text) => read_value(form, text).unwrap_or(default_of(form)),
        None => default_of(form),
    }
}
