//! The pools that builds and queries run on.

/// The pools, each with one worker, two, seven and 64.
pub(crate) const ALL_POOLS: [&str; 12] = [
    "--pool serial --workers 1",
    "--pool serial --workers 2",
    "--pool serial --workers 7",
    "--pool serial --workers 64",
    "--pool rayon --workers 1",
    "--pool rayon --workers 2",
    "--pool rayon --workers 7",
    "--pool rayon --workers 64",
    "--pool steal --workers 1",
    "--pool steal --workers 2",
    "--pool steal --workers 7",
    "--pool steal --workers 64",
];

/// Each pool, with fewer numbers of workers.
pub(crate) const SOME_POOLS: [&str; 5] = [
    "--pool serial",
    "--pool rayon --workers 2",
    "--pool rayon --workers 7",
    "--pool steal --workers 7",
    "--pool steal --workers 64",
];
