//! Builds, a query and a build that is asked, read by clap.

use ann_defs::{Element, Kind};
use annbuild_clap::{Parsed, parse_by_clap};
use annbuild_words::{Asked, Request, Settings, Verb, read_words};
use std::alloc::Global;

/// These words, owned.
fn owned(alloc: Global, words: &[&str]) -> Option<Vec<String>> {
    let mut owned = Vec::new(alloc);
    for word in words {
        owned.push(String::from_str(alloc, *word).ok()?).ok()?;
    }
    Some(owned)
}

/// What clap reads of these words.
fn read_twice(alloc: Global, words: &[&str]) -> Option<Parsed> {
    let owned = owned(alloc, words)?;
    match read_words(&owned) {
        Asked::For(request) => parse_by_clap(alloc, &request).ok(),
        _ => None,
    }
}

/// A command, and its file names; one that it doesn't have is empty.
type Over = (Verb, &'static str, &'static str, &'static str);

/// Whether a request is this command over these names.
fn is_over(request: &Request<'_>, over: Over) -> bool {
    let (verb, first, second, third) = over;
    request.verb == verb
        && request.names.first == first
        && request.names.second == second
        && request.names.third == third
}

/// The numbers of settings that are looked at here: the degree, both parts of alpha, the bits, the greatest level, the width of
/// a query's search, its answers, and the callers.
fn numbers_of(settings: &Settings) -> [u32; 8] {
    [
        settings.degree,
        settings.num,
        settings.den,
        settings.bits,
        settings.max_level,
        settings.search,
        settings.k,
        settings.callers,
    ]
}

/// A kind of index, its elements, and a cap.
type Chosen = (Kind, Element, Option<u32>);

/// Whether clap reads these words as this command, with these choices and these numbers.
fn are_read(alloc: Global, words: &[&str], over: Over, chosen: Chosen, numbers: &[u32; 8]) -> bool {
    let Some(parsed) = read_twice(alloc, words) else {
        return false;
    };
    let request = parsed.request();
    let settings = &request.settings;
    is_over(&request, over)
        && (settings.kind, settings.element, settings.cap) == chosen
        && numbers_of(settings) == *numbers
}

/// What each case shows, its words, and what they should be read as.
static CASES: [(&str, &[&str], Over, Chosen, [u32; 8]); 4] = [
    (
        "odd file names and settings of a build",
        &["build", "--cap", "007", "help", "a=b c", "--alpha=5/4"],
        (Verb::Build, "help", "a=b c", ""),
        (Kind::Vamana, Element::U8, Some(7)),
        [64, 5, 4, 4, 15, 64, 10, 2],
    ),
    (
        "a build of layers",
        &["build", "x", "--bits=2", "y", "--kind", "hnsw"],
        (Verb::Build, "x", "y", ""),
        (Kind::Hnsw, Element::U8, None),
        [16, 12, 10, 2, 15, 64, 10, 2],
    ),
    (
        "a query named like commands",
        &["query", "build", "query", "--k=3", "x", "--type", "i8"],
        (Verb::Query, "build", "query", "x"),
        (Kind::Vamana, Element::I8, None),
        [64, 12, 10, 4, 15, 64, 3, 2],
    ),
    (
        "a session named like its command",
        &["live", "--callers", "16", "live", "--cap=2", "a b", "x"],
        (Verb::Live, "live", "a b", "x"),
        (Kind::Vamana, Element::U8, Some(2)),
        [64, 12, 10, 4, 15, 64, 10, 16],
    ),
];

#[test]
fn odd_names_and_settings_of_builds_a_query_and_a_session_are_read_by_clap(rt: HostRuntime) {
    for (shown, words, over, chosen, numbers) in &CASES {
        assert!(rt;
            are_read(rt.alloc(), *words, *over, *chosen, numbers),
            "{shown}"
        );
    }
}
