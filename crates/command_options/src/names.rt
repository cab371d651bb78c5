//! What words and lines call the choices, and the choice that a word names.
ghost use Rattle.std.specs.Prelude.{◌≡◌, ◌≤◌, ℕ, List, length};
ghost use Rattle.command_options.specs.Names.{kind_name, pool_name, order_name, start_name, element_name, first_named};

use ann_defs::{Element, Kind, OrderKind, StartKind, Way};

/// A choice that words call by a name.
pub trait Named {
    /// The name.
    ghost name_of: { Self → List ℕ };

    /// The name.
    fn text(&self) -> &'static str
        ensures { result.now ≡ name_of self.now };
}

/// The first of these choices that has this name.
pub fn find_named<T: Named + Copy>(choices: &[T], word: &str) -> Option<T>
    ensures { result ≡ first_named (T.name_of) choices.now word.now }
{
    for choice in choices {
        if word == choice.text() {
            return Some(*choice);
        }
    }
    None
}

/// The name of a kind of index.
pub fn kind_text(kind: Kind) -> &'static str
    ensures name { result.now ≡ kind_name kind }
    ensures short { length result.now ≤ 6 }
{
    match kind {
        Kind::Vamana => "vamana",
        Kind::Hnsw => "hnsw",
        Kind::Nnd => "nnd",
    }
}

impl Named for Kind {
    ghost name_of = { kind_name };

    fn text(&self) -> &'static str {
        kind_text(*self)
    }
}

impl Named for Way {
    ghost name_of = { pool_name };

    fn text(&self) -> &'static str {
        match self {
            Way::Serial => "serial",
            Way::Shares => "rayon",
            Way::Stealing => "steal",
        }
    }
}

impl Named for OrderKind {
    ghost name_of = { order_name };

    fn text(&self) -> &'static str {
        match self {
            OrderKind::File => "file",
            OrderKind::Seeded => "seeded",
        }
    }
}

impl Named for StartKind {
    ghost name_of = { start_name };

    fn text(&self) -> &'static str {
        match self {
            StartKind::First => "first",
            StartKind::Medoid => "medoid",
        }
    }
}

impl Named for Element {
    ghost name_of = { element_name };

    fn text(&self) -> &'static str {
        match self {
            Element::U8 => "u8",
            Element::I8 => "i8",
        }
    }
}
