//! The worked files.

/// Four points on a line: 0, 10, 20 and 30.
pub const FOUR: &[u8] = b"\x04\0\0\0\x01\0\0\0\x00\x0a\x14\x1e";

/// Their index with degree 2, beam 4 and alpha 1/1, in file order from the first, with batches of at most 4: rows
/// [1], [0, 2], [1] and [1].
pub const FOUR_BY_FOUR: &[u8] =
    b"PANN\x01\0\0\0\x01\0\0\0\x04\0\0\0\x01\0\0\0\x02\0\0\0\0\0\0\0\x01\0\0\0\x01\0\0\0\x01\0\0\0\x02\0\0\0\0\0\0\0\x02\0\0\0\x01\0\0\0\x01\0\0\0\x01\0\0\0\x01\0\0\0";

/// The same with one point in each batch: rows [1], [0, 2], [1, 3] and [2].
pub const FOUR_BY_ONE: &[u8] =
    b"PANN\x01\0\0\0\x01\0\0\0\x04\0\0\0\x01\0\0\0\x02\0\0\0\0\0\0\0\x01\0\0\0\x01\0\0\0\x01\0\0\0\x02\0\0\0\0\0\0\0\x02\0\0\0\x02\0\0\0\x01\0\0\0\x03\0\0\0\x01\0\0\0\x02\0\0\0";

/// The index of the default settings but for file order from the first: the rows of [`FOUR_BY_ONE`], degree 64.
pub const FOUR_WIDE: &[u8] =
    b"PANN\x01\0\0\0\x01\0\0\0\x04\0\0\0\x01\0\0\0\x40\0\0\0\0\0\0\0\x01\0\0\0\x01\0\0\0\x01\0\0\0\x02\0\0\0\0\0\0\0\x02\0\0\0\x02\0\0\0\x01\0\0\0\x03\0\0\0\x01\0\0\0\x02\0\0\0";

/// An HNSW index of them with one layer, degree 1 and beam 4, in file order, with batches of at most 4: the rows of
/// [`FOUR_BY_FOUR`].
pub const FOUR_IN_ONE_LAYER: &[u8] =
    b"PANN\x01\0\0\0\x02\0\0\0\x04\0\0\0\x01\0\0\0\x01\0\0\0\0\0\0\0\x01\0\0\0\x01\0\0\0\x01\0\0\0\x02\0\0\0\0\0\0\0\x02\0\0\0\x01\0\0\0\x01\0\0\0\x01\0\0\0\x01\0\0\0";

/// An HNSW index of them whose layer 1 holds point 1 alone, with an empty row: degree 1, beam 4, in file order but for the
/// start, which comes first, with batches of at most 4.
pub const FOUR_IN_TWO_LAYERS: &[u8] =
    b"PANN\x01\0\0\0\x02\0\0\0\x04\0\0\0\x01\0\0\0\x01\0\0\0\x01\0\0\0\x02\0\0\0\x01\0\0\0\x01\0\0\0\x02\0\0\0\0\0\0\0\x02\0\0\0\x01\0\0\0\x01\0\0\0\x01\0\0\0\x01\0\0\0\x01\0\0\0\x01\0\0\0\0\0\0\0";

/// An index of lists of them: kind 3, and the rows of [`FOUR_BY_ONE`].
pub const FOUR_IN_LISTS: &[u8] =
    b"PANN\x01\0\0\0\x03\0\0\0\x04\0\0\0\x01\0\0\0\x02\0\0\0\0\0\0\0\x01\0\0\0\x01\0\0\0\x01\0\0\0\x02\0\0\0\0\0\0\0\x02\0\0\0\x02\0\0\0\x01\0\0\0\x03\0\0\0\x01\0\0\0\x02\0\0\0";

/// [`FOUR_BY_FOUR`] in version 2, with its stamp.
pub const FOUR_STAMPED: &[u8] =
    b"PANN\x02\0\0\0\x01\0\0\0\x04\0\0\0\x01\0\0\0\x02\0\0\0\0\0\0\0\x01\0\0\0\x01\0\0\0\x01\0\0\0\x01\0\0\0\x04\0\0\0\x01\0\0\0\x01\0\0\0\x04\0\0\0\0\0\0\0\0\0\0\0\0\0\0\0\0\0\0\0\0\0\0\0\0\0\0\0\x01\0\0\0\0\0\0\0\0\0\0\0\0\0\0\0\0\0\0\0\x01\x07\xed\xb8\xbf\x12\xa2\x0c\x27\x57\x48\xc8\x7e\x5c\x28\x46\xcb\xe0\xf9\xe0\x5e\xec\x24\x48\x6c\x8c\xfe\x0e\xd4\x77\x37\x47\x01\0\0\0\x01\0\0\0\x02\0\0\0\0\0\0\0\x02\0\0\0\x01\0\0\0\x01\0\0\0\x01\0\0\0\x01\0\0\0";

/// The settings of [`FOUR_BY_FOUR`] and [`FOUR_BY_ONE`] but for the cap.
pub const FOUR_LINE: &[u8] = b"built vamana count 4 dim 1 degree 2 start 0 layers 1 edges 5\n";
