//! Settings, defaults and names.

use crate::reading::words_in;
use ann_defs::{Element, Kind, OrderKind, StartKind, Way};
use annbuild_words::{Asked, Settings, read_words};
use std::alloc::Global;

/// The settings that words ask for.
fn settings_in(alloc: Global, text: &str) -> Option<Settings> {
    let words = words_in(alloc, text).ok()?;
    match read_words(words.as_slice()) {
        Asked::For(request) => Some(request.settings),
        _ => None,
    }
}

/// Whether these are of the default order and graph of the kind that is built by default.
fn are_of_vamana(all: &Settings) -> bool {
    all.kind == Kind::Vamana
        && all.order == OrderKind::Seeded
        && all.start == StartKind::Medoid
        && all.pool == Way::Stealing
        && (all.degree, all.beam, all.num, all.den) == (64, 128, 12, 10)
        && (all.workers, all.seed, all.search, all.k) == (4, 0, 64, 10)
}

/// Whether these are the other defaults of all commands.
fn are_the_others(all: &Settings) -> bool {
    (all.passes, all.bits, all.max_level) == (1, 4, 15)
        && (all.list, all.trees, all.leaf) == (40, 8, 64)
        && (all.rounds, all.floor, all.format) == (10, 0, 1)
        && (all.count, all.dim, all.queries) == (1000, 16, 100)
        && (all.callers, all.label) == (2, 0)
        && all.element == Element::U8
}

#[test]
fn a_setting_that_is_left_out_has_its_default(rt: HostRuntime) {
    let all = settings_in(rt.alloc(), "build a --cap 4 b").expect(&rt, "a request");
    assert!(rt; are_of_vamana(&all) && are_the_others(&all) && all.cap == Some(4));
}

#[test]
fn live_has_the_defaults_of_vamana(rt: HostRuntime) {
    let live = settings_in(rt.alloc(), "live a b c").expect(&rt, "a request");
    assert!(rt; are_of_vamana(&live) && live.callers == 2 && live.cap.is_none());
}

#[test]
fn a_query_has_the_settings_that_it_names(rt: HostRuntime) {
    let query = settings_in(rt.alloc(), "query --search 1 a b --workers=7 c").expect(
        &rt,
        "a request",
    );
    assert!(rt; (query.workers, query.search, query.k) == (7, 1, 1));
    let signed = settings_in(rt.alloc(), "check a b --type i8").expect(&rt, "a request");
    assert!(rt; signed.element == Element::I8);
}

#[test]
fn layers_have_defaults_and_settings_of_their_own(rt: HostRuntime) {
    let layered = settings_in(rt.alloc(), "build a --kind hnsw b").expect(&rt, "a request");
    assert!(rt;
        layered.kind == Kind::Hnsw
            && (
                layered.degree,
                layered.beam,
                layered.bits,
                layered.max_level
            ) == (16, 128, 4, 15)
    );
    let set = settings_in(rt.alloc(), "build --bits 1 a --kind=hnsw b --max-level 0").expect(
        &rt,
        "a request",
    );
    assert!(rt; set.kind == Kind::Hnsw && (set.degree, set.bits, set.max_level) == (16, 1, 0));
}

/// Whether a query over the files x, y and z is read with its names and its pool.
fn is_named(alloc: Global, text: &str) -> bool {
    let Ok(words) = words_in(alloc, text) else {
        return false;
    };
    match read_words(words.as_slice()) {
        Asked::For(request) => {
            let names = request.names;
            names.first == "x"
                && names.second == "y"
                && names.third == "z"
                && names.fourth == ""
                && request.settings.pool == Way::Shares
        }
        _ => false,
    }
}

#[test]
fn names_are_read_in_their_order(rt: HostRuntime) {
    assert!(rt; is_named(rt.alloc(), "query --k 3 x --pool rayon y z"));
}
