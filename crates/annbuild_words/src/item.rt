//! What each word after the command is.
ghost use Rattle.std.specs.Prelude.{◌≡◌, ◌<◌, length, slice_index_or};
ghost use Rattle.std.specs.Option.{MatchOption};
ghost use Rattle.annbuild_words.specs.Words.{is_dashed, is_option, is_bare, bare_item, option_item, item, is_taken, items, Wrong};
ghost use Rattle.annbuild_words.specs.Parts.{texts, item_of, items_of};

use arrayvec::ArrayVec;

/// What a word is.
#[derive(Clone, Copy)]
pub enum Part<'w> {
    /// An option's name, with its dashes, and its value.
    Sets { name: &'w str, value: &'w str },
    /// The value of the option before it.
    IsValue,
    /// A file name.
    Names(&'w str),
    /// A word that breaks a rule.
    Wrong,
}

impl<'w> Default for Part<'w> {
    fn default() -> Part<'w> {
        Part::Wrong
    }
}

/// The most words after a command that keep the rules: each option with its value, and four file names.
pub const MOST_WORDS: usize = 58;

/// The parts of the words after a command.
pub type Parts<'w> = ArrayVec<Part<'w>, MOST_WORDS>;

/// Whether a word begins with `-`.
fn begins_with_dash(word: &str) -> bool
    ensures { result ≡ is_dashed word.now }
{
    match word.as_bytes() {
        [] => false,
        [first, ..] => *first == b'-',
    }
}

/// Whether a word begins with `--` and has a further character.
fn names_option(word: &str) -> bool
    ensures { result ≡ is_option word.now }
{
    match word.as_bytes() {
        [first, second, _, ..] => *first == b'-' && *second == b'-',
        _ => false,
    }
}

/// Whether a word is an option whose value is the next word.
fn takes_next(word: &str) -> bool
    ensures { result ≡ is_bare word.now }
{
    names_option(word) && word.split_once('=').is_none()
}

/// An option without a `=`, before the words after it.
fn with_next<'w>(name: &'w str, after: &'w [String]) -> Part<'w>
    ensures { item_of result ≡ bare_item name.now (texts after.now) }
{
    match after {
        [] => Part::Wrong,
        [next, ..] => {
            let value = next.as_str();
            if begins_with_dash(value) {
                Part::Wrong
            } else {
                Part::Sets { name, value }
            }
        }
    }
}

/// An option, before the words after it.
fn cut_option<'w>(word: &'w str, after: &'w [String]) -> Part<'w>
    ensures { item_of result ≡ option_item word.now (texts after.now) }
{
    match word.split_once('=') {
        Some((name, value)) => Part::Sets { name, value },
        None => with_next(word, after),
    }
}

/// A word before the words after it, where `taken` says whether it is the value of the option before it.
fn between<'w>(taken: bool, word: &'w str, after: &'w [String]) -> Part<'w>
    ensures { item_of result ≡ item taken word.now (texts after.now) }
{
    if names_option(word) {
        return cut_option(word, after);
    }
    if begins_with_dash(word) {
        return Part::Wrong;
    }
    if taken {
        return Part::IsValue;
    }
    Part::Names(word)
}

/// Whether the word at a place follows an option whose value is the next word.
fn follows_bare(words: &[String], i: usize) -> bool
    requires { i < length words.now }
    ensures { result ≡ is_taken (texts words.now) i }
{
    if i == 0 {
        return false;
    }
    takes_next(words[i - 1].as_str())
}

/// What the word at a place is.
fn part_at(words: &[String], i: usize) -> Part<'_>
    requires { i < length words.now }
    ensures { item_of result ≡ slice_index_or (items (texts words.now)) i Wrong }
{
    between(follows_bare(words, i), words[i].as_str(), &words[i + 1..])
}

/// The words after a command, cut into parts; none where there are more than any command has.
pub fn cut(words: &[String]) -> Option<Parts<'_>>
    ensures { MatchOption result (MOST_WORDS < length words.entry.now) (λ parts. items_of parts.items ≡ items (texts words.entry.now)) }
{
    if words.len() > MOST_WORDS {
        return None;
    }
    let mut parts = ArrayVec::new();
    for i in 0..words.len() {
        parts.push(part_at(words, i));
    }
    Some(parts)
}
