//! The settings of a request, from the values of the options, and back.
ghost use Rattle.std.specs.Prelude.{◌≡◌, ◌<◌, ◌^◌, IfSome};
ghost use Rattle.command_options.specs.declared.option_name.OptionName.{OptionName};
ghost use Rattle.command_options.specs.declared.value.Value.{Value};
ghost use Rattle.command_options.specs.Settings.{number_or, settings_of, values_of, kind_of, pool_of, order_of, start_of, element_of, numerator, denominator, some_number, IsInRange};

use crate::value::number_of;
use crate::{OptionName, Settings, Value, Verb};
use ann_defs::{Element, Kind, OrderKind, StartKind, Way};

/// What gives the values of the options.
pub trait Values {
    /// The value of each option.
    ghost values: { Self → OptionName → Value };

    /// The value of an option.
    fn value(&self, option: OptionName) -> Value
        ensures { result ≡ values self.now option };
}

impl Values for Settings {
    ghost values = { values_of };

    fn value(&self, option: OptionName) -> Value {
        match option {
            OptionName::Kind => Value::KindIs(self.kind),
            OptionName::Workers => Value::Number(u64::from(self.workers)),
            OptionName::Pool => Value::PoolIs(self.pool),
            OptionName::Seed => Value::Number(self.seed),
            OptionName::Order => Value::OrderIs(self.order),
            OptionName::Start => Value::StartIs(self.start),
            OptionName::Degree => Value::Number(u64::from(self.degree)),
            OptionName::Beam => Value::Number(u64::from(self.beam)),
            OptionName::Alpha => Value::Fraction {
                num: u64::from(self.num),
                den: u64::from(self.den),
            },
            OptionName::Cap => match self.cap {
                Some(cap) => Value::Number(u64::from(cap)),
                None => Value::ByRule,
            },
            OptionName::Passes => Value::Number(u64::from(self.passes)),
            OptionName::Bits => Value::Number(u64::from(self.bits)),
            OptionName::MaxLevel => Value::Number(u64::from(self.max_level)),
            OptionName::List => Value::Number(u64::from(self.list)),
            OptionName::Trees => Value::Number(u64::from(self.trees)),
            OptionName::Leaf => Value::Number(u64::from(self.leaf)),
            OptionName::Rounds => Value::Number(u64::from(self.rounds)),
            OptionName::Floor => Value::Number(self.floor),
            OptionName::Format => Value::Number(u64::from(self.format)),
            OptionName::Count => Value::Number(u64::from(self.count)),
            OptionName::Dim => Value::Number(u64::from(self.dim)),
            OptionName::Queries => Value::Number(u64::from(self.queries)),
            OptionName::Search => Value::Number(u64::from(self.search)),
            OptionName::K => Value::Number(u64::from(self.k)),
            OptionName::Callers => Value::Number(u64::from(self.callers)),
            OptionName::Label => Value::Number(u64::from(self.label)),
            OptionName::Type => Value::ElementIs(self.element),
        }
    }
}

/// The number of a value in 32 bits.
fn small(value: Value, other: u64) -> u32
    requires { number_or other value < 2 ^ 32 }
    ensures { result ≡ number_or other value }
{
    number_of(value, other) as u32
}

/// The kind of a value.
pub fn kind_in_value(value: Value) -> Kind
    ensures { result ≡ kind_of value }
{
    match value {
        Value::KindIs(kind) => kind,
        _ => Kind::Vamana,
    }
}

/// The pool of a value.
fn pool_in_value(value: Value) -> Way
    ensures { result ≡ pool_of value }
{
    match value {
        Value::PoolIs(way) => way,
        _ => Way::Stealing,
    }
}

/// The order of a value.
fn order_in_value(value: Value) -> OrderKind
    ensures { result ≡ order_of value }
{
    match value {
        Value::OrderIs(kind) => kind,
        _ => OrderKind::Seeded,
    }
}

/// The start of a value.
fn start_in_value(value: Value) -> StartKind
    ensures { result ≡ start_of value }
{
    match value {
        Value::StartIs(kind) => kind,
        _ => StartKind::Medoid,
    }
}

/// The element type of a value.
fn element_in_value(value: Value) -> Element
    ensures { result ≡ element_of value }
{
    match value {
        Value::ElementIs(element) => element,
        _ => Element::U8,
    }
}

/// The numerator and the denominator of a value in 32 bits.
fn alpha_in_value(value: Value) -> (u32, u32)
    requires num { numerator value < 2 ^ 32 }
    requires den { denominator value < 2 ^ 32 }
    ensures num { result.0 ≡ numerator value }
    ensures den { result.1 ≡ denominator value }
{
    match value {
        Value::Fraction { num, den } => (num as u32, den as u32),
        _ => (12, 10),
    }
}

/// The number of a value in 32 bits, if it has one.
fn cap_in_value(value: Value) -> Option<u32>
    requires { IfSome (some_number value) (λ n. n < 2 ^ 32) }
    ensures { result ≡ some_number value }
{
    match value {
        Value::Number(n) => Some(n as u32),
        _ => None,
    }
}

/// The settings of values, where each is in its range.
pub fn settings_of<V: Values>(verb: Verb, given: &V) -> Settings
    requires { IsInRange verb (settings_of (V.values given.now)) }
    ensures { result ≡ settings_of (V.values given.now) }
{
    let alpha = alpha_in_value(given.value(OptionName::Alpha));
    let search = number_of(given.value(OptionName::Search), 0);
    Settings {
        kind: kind_in_value(given.value(OptionName::Kind)),
        workers: small(given.value(OptionName::Workers), 0),
        pool: pool_in_value(given.value(OptionName::Pool)),
        seed: number_of(given.value(OptionName::Seed), 0),
        order: order_in_value(given.value(OptionName::Order)),
        start: start_in_value(given.value(OptionName::Start)),
        degree: small(given.value(OptionName::Degree), 0),
        beam: small(given.value(OptionName::Beam), 0),
        num: alpha.0,
        den: alpha.1,
        cap: cap_in_value(given.value(OptionName::Cap)),
        passes: small(given.value(OptionName::Passes), 0),
        bits: small(given.value(OptionName::Bits), 0),
        max_level: small(given.value(OptionName::MaxLevel), 0),
        list: small(given.value(OptionName::List), 0),
        trees: small(given.value(OptionName::Trees), 0),
        leaf: small(given.value(OptionName::Leaf), 0),
        rounds: small(given.value(OptionName::Rounds), 0),
        floor: number_of(given.value(OptionName::Floor), 0),
        format: small(given.value(OptionName::Format), 0),
        count: small(given.value(OptionName::Count), 0),
        dim: small(given.value(OptionName::Dim), 0),
        queries: small(given.value(OptionName::Queries), 0),
        search: search as u32,
        k: small(given.value(OptionName::K), 10_u64.min(search)),
        callers: small(given.value(OptionName::Callers), 0),
        label: small(given.value(OptionName::Label), 0),
        element: element_in_value(given.value(OptionName::Type)),
    }
}
