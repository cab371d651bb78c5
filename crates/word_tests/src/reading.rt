//! What words mean, and words that the program does not have.

use ann_shelf::NoMemory;
use annbuild_words::{Asked, SettingName, Verb, read_words};
use std::alloc::Global;

/// What each row of a table should mean.
#[derive(Clone, Copy)]
pub(crate) enum Want {
    Nothing,
    Outside(SettingName, u64, u64, u64),
    Accepted(Verb),
}

/// The words of a text.
pub(crate) fn words_in(alloc: Global, text: &str) -> Result<Vec<String>, NoMemory> {
    let mut words = Vec::new(alloc);
    for word in text.split_whitespace() {
        words.push(String::from_str(alloc, word)?)?;
    }
    Ok(words)
}

/// Whether words mean this.
fn is_read_as(words: &[String], want: Want) -> bool {
    match (read_words(words), want) {
        (Asked::Nothing, Want::Nothing) => true,
        (Asked::For(request), Want::Accepted(verb)) => request.verb == verb,
        (
            Asked::Outside {
                name,
                value,
                least,
                greatest,
            },
            Want::Outside(wanted, number, low, high),
        ) => name == wanted && value == number && least == low && greatest == high,
        _ => false,
    }
}

/// Whether a text means this.
fn means(alloc: Global, text: &str, want: Want) -> bool {
    match words_in(alloc, text) {
        Ok(words) => is_read_as(words.as_slice(), want),
        Err(_) => false,
    }
}

/// The first text of a table that doesn't mean what stands beside it.
pub(crate) fn first_misread<'t>(alloc: Global, table: &[(&'t str, Want)]) -> Option<&'t str> {
    for (text, want) in table {
        if !means(alloc, *text, *want) {
            return Some(*text);
        }
    }
    None
}

/// Commands and options that the program doesn't have yet.
static UNKNOWN: [(&str, Want); 14] = [
    ("build a b --kind nnd --passes 1", Want::Nothing),
    ("build a b --kind hnsw --passes 2", Want::Nothing),
    ("trial --format 1", Want::Nothing),
    ("trial --type u8", Want::Nothing),
    ("make a --type u8", Want::Nothing),
    ("query a b c --format 1", Want::Nothing),
    ("check a b --passes 1", Want::Nothing),
    ("query a b c --label 0", Want::Nothing),
    ("exact a b", Want::Nothing),
    ("recall a b c", Want::Nothing),
    ("forget a b c d", Want::Nothing),
    ("without a b c d", Want::Nothing),
    ("label a b c", Want::Nothing),
    ("find a b c d", Want::Nothing),
];

#[test]
fn what_the_program_does_not_have_is_no_request(rt: HostRuntime) {
    let misread = first_misread(rt.alloc(), &UNKNOWN);
    assert!(rt; misread.is_none(), "{misread:?}");
}

/// The word `build` and a hundred names.
fn a_hundred_names(alloc: Global) -> Result<Vec<String>, NoMemory> {
    let mut words = words_in(alloc, "build")?;
    for _ in 0..100 {
        words.push(String::from_str(alloc, "a")?)?;
    }
    Ok(words)
}

#[test]
fn more_words_than_a_command_has_are_no_request(rt: HostRuntime) {
    let words = a_hundred_names(rt.alloc()).expect(&rt, "memory");
    assert!(rt; is_read_as(words.as_slice(), Want::Nothing));
}
