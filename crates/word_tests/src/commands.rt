//! Words of the commands other than `build`.

use crate::reading::{Want, first_misread};
use annbuild_words::{SettingName, Verb};

/// Texts and what they mean.
static WORDS: [(&str, Want); 38] = [
    ("query a b c --kind vamana", Want::Nothing),
    ("query a b c --type i8 --type i8", Want::Nothing),
    ("query a b c --type=i8", Want::Accepted(Verb::Query)),
    ("query a b", Want::Nothing),
    ("query a b c", Want::Accepted(Verb::Query)),
    ("query a b c d", Want::Nothing),
    ("query a b c --seed 1", Want::Nothing),
    (
        "query a b c --search 4 --k 5",
        Want::Outside(SettingName::K, 5, 1, 4),
    ),
    (
        "query a b c --search 0 --k 5",
        Want::Outside(SettingName::Search, 0, 1, 1024),
    ),
    ("check a", Want::Nothing),
    ("check a b --workers 2", Want::Nothing),
    ("check --type i8 a b", Want::Accepted(Verb::Check)),
    ("check a b", Want::Accepted(Verb::Check)),
    ("make a --type i8", Want::Nothing),
    ("make a b", Want::Nothing),
    ("make a --kind hnsw", Want::Nothing),
    (
        "make a --count 3 --dim=5 --seed 7",
        Want::Accepted(Verb::Make),
    ),
    ("trial --kind nnd --type u8", Want::Nothing),
    ("trial a", Want::Nothing),
    ("trial --kind hnsw --start medoid", Want::Nothing),
    ("trial", Want::Accepted(Verb::Trial)),
    (
        "trial --kind hnsw --bits 4 --k 5",
        Want::Accepted(Verb::Trial),
    ),
    (
        "trial --queries 0",
        Want::Outside(SettingName::QueryCount, 0, 1, 4096),
    ),
    (
        "trial --kind nnd --start medoid --alpha 1/1",
        Want::Accepted(Verb::Trial),
    ),
    ("live a b", Want::Nothing),
    ("live a b c d", Want::Nothing),
    ("live a b c --bits 4", Want::Nothing),
    ("live a b c --kind hnsw --bits 4", Want::Nothing),
    ("live a b c", Want::Accepted(Verb::Live)),
    ("live a b c --type i8", Want::Accepted(Verb::Live)),
    (
        "live --callers=16 a b --kind vamana c --search 4 --k 4 --order file",
        Want::Accepted(Verb::Live),
    ),
    (
        "live a b c --callers 16 --search 4 --k 5",
        Want::Outside(SettingName::K, 5, 1, 4),
    ),
    (
        "live a b c --callers 17",
        Want::Outside(SettingName::Callers, 17, 1, 16),
    ),
    (
        "live a b c --callers 0",
        Want::Outside(SettingName::Callers, 0, 1, 16),
    ),
    (
        "live a b c --workers 65 --degree 0 --kind hnsw",
        Want::Outside(SettingName::Kind, 2, 1, 1),
    ),
    (
        "live a b c --kind hnsw",
        Want::Outside(SettingName::Kind, 2, 1, 1),
    ),
    (
        "live a b c --kind nnd",
        Want::Outside(SettingName::Kind, 3, 1, 1),
    ),
    (
        "live a b c --format 3 --passes 3",
        Want::Outside(SettingName::Passes, 3, 1, 2),
    ),
];

#[test]
fn worked_words_of_other_commands(rt: HostRuntime) {
    let misread = first_misread(rt.alloc(), &WORDS);
    assert!(rt; misread.is_none(), "{misread:?}");
}
