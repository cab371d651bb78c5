//! Words of a build, and words that name no command.

use crate::reading::{Want, first_misread};
use annbuild_words::{SettingName, Verb};

/// Texts and what they mean.
static WORDS: [(&str, Want); 60] = [
    ("", Want::Nothing),
    ("build", Want::Nothing),
    ("build a", Want::Nothing),
    ("build a b c", Want::Nothing),
    ("build a b --degree 2 --degree 3", Want::Nothing),
    ("build a b --degree 2 --degree=2", Want::Nothing),
    ("build a b --bits 4", Want::Nothing),
    ("build a b --degree x", Want::Nothing),
    ("build a b --degree=", Want::Nothing),
    ("build a b -v", Want::Nothing),
    ("build a b --", Want::Nothing),
    ("build a b --degree", Want::Nothing),
    ("build a b --workers --degree", Want::Nothing),
    ("build a b --alpha 12", Want::Nothing),
    ("build a b --alpha 1/2/3", Want::Nothing),
    ("build a b --degree +2", Want::Nothing),
    ("build a b --degree -2", Want::Nothing),
    ("build a b --search 4", Want::Nothing),
    ("build a b --max-level 2", Want::Nothing),
    ("build a b --kind hnsw --start medoid", Want::Nothing),
    ("build a b --kind hnsw --alpha 12/10", Want::Nothing),
    ("build a b --kind hnsw --list 40", Want::Nothing),
    ("build a b --kind hnsw --kind hnsw", Want::Nothing),
    ("build a b --kind HNSW", Want::Nothing),
    ("build a b --kind 2", Want::Nothing),
    ("build a b --pool threads", Want::Nothing),
    ("grow a b", Want::Nothing),
    ("--degree 2 build a b", Want::Nothing),
    ("build a b --type u16", Want::Nothing),
    ("build a b --type u8", Want::Accepted(Verb::Build)),
    (
        "build a b --kind hnsw --type i8",
        Want::Accepted(Verb::Build),
    ),
    ("build a b --degree=2", Want::Accepted(Verb::Build)),
    (
        "build --order=file a --start first b --degree 002",
        Want::Accepted(Verb::Build),
    ),
    (
        "build a b --degree 0",
        Want::Outside(SettingName::Degree, 0, 1, 128),
    ),
    (
        "build a b --beam 0 --degree 129",
        Want::Outside(SettingName::Degree, 129, 1, 128),
    ),
    (
        "build a b --alpha 9/10",
        Want::Outside(SettingName::AlphaNum, 9, 10, 1000),
    ),
    (
        "build a b --alpha 0/0",
        Want::Outside(SettingName::AlphaDen, 0, 1, 1000),
    ),
    (
        "build a b --cap 4194305",
        Want::Outside(SettingName::Cap, 4_194_305, 1, 4_194_304),
    ),
    (
        "build a b --workers 65 --cap 0",
        Want::Outside(SettingName::Workers, 65, 1, 64),
    ),
    (
        "build a b --kind vamana --degree 129",
        Want::Outside(SettingName::Degree, 129, 1, 128),
    ),
    (
        "build a b --kind hnsw --degree 65",
        Want::Outside(SettingName::Degree, 65, 1, 64),
    ),
    (
        "build a b --bits 9 --max-level 16 --kind hnsw",
        Want::Outside(SettingName::Bits, 9, 1, 8),
    ),
    (
        "build a b --kind=hnsw --bits 0",
        Want::Outside(SettingName::Bits, 0, 1, 8),
    ),
    (
        "build a b --kind hnsw --max-level 16",
        Want::Outside(SettingName::MaxLevel, 16, 0, 15),
    ),
    ("build a b --kind vamana", Want::Accepted(Verb::Build)),
    (
        "build a b --kind hnsw --bits 4",
        Want::Accepted(Verb::Build),
    ),
    (
        "build --max-level=0 a --bits 8 b --degree 64 --order file --cap 1 --beam 1024 --kind=hnsw",
        Want::Accepted(Verb::Build),
    ),
    (
        "build a b --kind nnd --list 40 --trees 64 --leaf 1024 --rounds 0 --floor 18446744073709551615",
        Want::Accepted(Verb::Build),
    ),
    ("build a b --kind nnd --order file", Want::Nothing),
    ("build a b --kind nnd --beam 4", Want::Nothing),
    ("build a b --kind hnsw --list 4", Want::Nothing),
    (
        "build a b --kind nnd --list 129 --trees 65",
        Want::Outside(SettingName::List, 129, 1, 128),
    ),
    (
        "build a b --kind nnd --leaf 1",
        Want::Outside(SettingName::Leaf, 1, 2, 1024),
    ),
    (
        "build a b --kind nnd --trees 0",
        Want::Outside(SettingName::Trees, 0, 1, 64),
    ),
    (
        "build a b --kind nnd --rounds 65",
        Want::Outside(SettingName::RoundCount, 65, 0, 64),
    ),
    ("build a b --alpha 1/1", Want::Accepted(Verb::Build)),
    ("build a b --alpha 1000/1", Want::Accepted(Verb::Build)),
    (
        "build a b --seed 18446744073709551615",
        Want::Accepted(Verb::Build),
    ),
    ("build a b --seed 18446744073709551616", Want::Nothing),
    (
        "build a b --kind hnsw --format 0 --max-level 15",
        Want::Outside(SettingName::Format, 0, 1, 2),
    ),
];

#[test]
fn worked_words_of_a_build(rt: HostRuntime) {
    let misread = first_misread(rt.alloc(), &WORDS);
    assert!(rt; misread.is_none(), "{misread:?}");
}
