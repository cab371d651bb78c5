//! The limits of the program, which readers, builders and clauses share.

/// The greatest number of points or queries.
pub const MAX_POINTS: u32 = 4194304;

/// The greatest dimension of a point.
pub const MAX_DIM: u32 = 2048;

/// The greatest number of stored numbers of all points together.
pub const MAX_CELLS: u64 = 1073741824;

/// The greatest number of 32-bit words of all rows together, each with one word for its length.
pub const MAX_WORDS: u64 = 134217728;

/// The greatest length of a row.
pub const MAX_DEGREE: u32 = 128;

/// The greatest width of a search list.
pub const MAX_BEAM: u32 = 1024;

/// The greatest number of workers.
pub const MAX_WORKERS: u32 = 64;

/// The greatest number of callers beside a build.
pub const MAX_CALLERS: u32 = 16;

/// The greatest number of answers that are kept beside a build: queries times answers to each.
pub const MAX_ANSWERS: u64 = 16777216;

/// The greatest number of reverse edges of a batch: one for each id of each row.
pub const MAX_PAIRS: u64 = 536870912;
