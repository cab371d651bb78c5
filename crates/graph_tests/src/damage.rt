//! Damaged files of each kind: cut at every length, with a byte too many, and with each word of the header set to 0, to its
//! limit, to one past it, and to the greatest number.
use crate::indexes::{FOUR_POINTS, TWO_LAYERS, fault_of, is_malformed};
use crate::layers::THREE_LAYERS;
use crate::replaced::{Broken, Over, breaks, exceeds, first_unbroken, is_read_with};
use ann_shelf::Quantity;
use graph_files::IndexRule;
use std::alloc::Global;

/// An index of lists: kind 3, rows [1], [0, 2], [1, 3] and [2].
pub(crate) const IN_LISTS: [u8; 72] = [
    80, 65, 78, 78, 1, 0, 0, 0, 3, 0, 0, 0, 4, 0, 0, 0, 1, 0, 0, 0, 2, 0, 0, 0, 0, 0, 0, 0, 1, 0,
    0, 0, 1, 0, 0, 0, 1, 0, 0, 0, 2, 0, 0, 0, 0, 0, 0, 0, 2, 0, 0, 0, 2, 0, 0, 0, 1, 0, 0, 0, 3, 0,
    0, 0, 1, 0, 0, 0, 2, 0, 0, 0,
];

/// The greatest number of a word.
const MOST: u32 = 4_294_967_295;

/// In files of every kind.
static IN_EVERY_KIND: [Broken; 15] = [
    (0, 0, 0, IndexRule::Magic),
    (0, MOST, 0, IndexRule::Magic),
    (4, 0, 4, IndexRule::Version),
    (4, 3, 4, IndexRule::Version),
    (4, MOST, 4, IndexRule::Version),
    (8, 0, 8, IndexRule::Kind),
    (8, 4, 8, IndexRule::Kind),
    (8, MOST, 8, IndexRule::Kind),
    (12, 0, 12, IndexRule::ZeroCount),
    (16, 0, 16, IndexRule::ZeroDim),
    (20, 0, 20, IndexRule::Degree),
    (24, 4, 24, IndexRule::Start),
    (24, MOST, 24, IndexRule::Start),
    (28, 0, 28, IndexRule::Layers),
    (28, MOST, 28, IndexRule::Layers),
];

/// In files of one layer, the rows of which begin with [1] and [0, 2].
static IN_ONE_LAYER: [Broken; 5] = [
    (28, 2, 28, IndexRule::Layers),
    (40, 3, 40, IndexRule::Degree),
    (48, 0, 48, IndexRule::DoubleEdge),
    (48, 1, 48, IndexRule::SelfEdge),
    (48, 4, 48, IndexRule::IdRange),
];

/// In the file of two layers.
static IN_TWO_LAYERS: [Broken; 6] = [
    (24, 0, 68, IndexRule::LayerIds),
    (24, 3, 68, IndexRule::LayerIds),
    (28, 16, 80, IndexRule::Short),
    (48, 0, 48, IndexRule::DoubleEdge),
    (48, 1, 48, IndexRule::SelfEdge),
    (48, 4, 48, IndexRule::IdRange),
];

/// A word over its limit, in files of every kind.
static OVER: [Over; 4] = [
    (12, 4_194_305, Quantity::Count, 4_194_304),
    (12, MOST, Quantity::Count, 4_194_304),
    (16, 2_049, Quantity::Dim, 2_048),
    (16, MOST, Quantity::Dim, 2_048),
];

/// Words that a file of one layer may have.
static ALLOWED: [(usize, u32); 7] = [
    (4, 1),
    (8, 3),
    (16, 2_048),
    (20, 128),
    (24, 0),
    (24, 3),
    (28, 1),
];

/// Whether the first bytes of a file are refused where they end.
fn is_cut_at(alloc: Global, file: &[u8], cut: usize) -> bool {
    let rule = if cut < 32 {
        IndexRule::ShortHeader
    } else {
        IndexRule::Short
    };
    match file.get(..cut) {
        Some(front) => is_malformed(alloc, front, cut as u64, rule),
        None => false,
    }
}

/// Whether a file is read, and refused at its end if a byte stands behind it.
fn ends_as_it_should(alloc: Global, file: &[u8]) -> bool {
    let mut longer = [0u8; 112];
    for (cell, byte) in longer.iter_mut().zip(file) {
        *cell = *byte;
    }
    match longer.get(..file.len().wrapping_add(1)) {
        Some(more) => {
            fault_of(alloc, file).is_none()
                && is_malformed(alloc, more, file.len() as u64, IndexRule::Trailing)
        }
        None => false,
    }
}

#[test]
fn each_cut_is_refused_where_it_ends(rt: HostRuntime) {
    let files = [
        FOUR_POINTS.as_slice(),
        TWO_LAYERS.as_slice(),
        THREE_LAYERS.as_slice(),
        IN_LISTS.as_slice(),
    ];
    for file in files {
        for cut in 0..file.len() {
            assert!(rt; is_cut_at(rt.alloc(), file, cut), "cut at {cut}");
        }
        assert!(rt; ends_as_it_should(rt.alloc(), file));
    }
}

#[test]
fn each_word_of_a_header_is_refused_or_read(rt: HostRuntime) {
    let rows = [
        (FOUR_POINTS.as_slice(), IN_EVERY_KIND.as_slice()),
        (FOUR_POINTS.as_slice(), IN_ONE_LAYER.as_slice()),
        (IN_LISTS.as_slice(), IN_EVERY_KIND.as_slice()),
        (IN_LISTS.as_slice(), IN_ONE_LAYER.as_slice()),
        (TWO_LAYERS.as_slice(), IN_EVERY_KIND.as_slice()),
        (TWO_LAYERS.as_slice(), IN_TWO_LAYERS.as_slice()),
    ];
    for (file, table) in rows {
        let missed = first_unbroken(rt.alloc(), file, table);
        assert!(rt; missed.is_none(), "{missed:?}");
    }
}

/// Whether a file is read with this degree, and refused with a greater one, and with more rows than are there.
fn keeps_its_degree(alloc: Global, file: &[u8], degree: u32) -> bool {
    let limit = u64::from(degree);
    let end = file.len() as u64;
    exceeds(
        alloc,
        file,
        (20, degree.wrapping_add(1), Quantity::Degree, limit),
    ) && exceeds(alloc, file, (20, MOST, Quantity::Degree, limit))
        && is_read_with(alloc, file, 20, degree)
        && breaks(alloc, file, (12, 4_194_304, end, IndexRule::Short))
}

#[test]
fn each_limit_is_kept(rt: HostRuntime) {
    // Each with the greatest degree of its kind.
    let files = [
        (FOUR_POINTS.as_slice(), 128u32),
        (TWO_LAYERS.as_slice(), 64),
        (IN_LISTS.as_slice(), 128),
    ];
    for (file, degree) in files {
        for over in &OVER {
            assert!(rt; exceeds(rt.alloc(), file, *over), "{over:?}");
        }
        assert!(rt; keeps_its_degree(rt.alloc(), file, degree));
    }
}

#[test]
fn each_limit_is_reached(rt: HostRuntime) {
    for file in [FOUR_POINTS.as_slice(), IN_LISTS.as_slice()] {
        for (at, word) in &ALLOWED {
            assert!(rt;
                is_read_with(rt.alloc(), file, *at, *word),
                "{word} at {at}"
            );
        }
    }
}
