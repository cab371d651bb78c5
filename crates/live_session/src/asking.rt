//! What is asked, by how many callers.
use bin_files::Points;

/// Queries of the dimension of the points, each to be answered with `k` of the nearest of a search list of width `beam`
/// (`L` in DiskANN), by so many callers. It owns nothing.
#[derive(Clone, Copy)]
pub struct Asking<'q> {
    pub queries: &'q Points,
    pub beam: u32,
    pub k: u32,
    pub callers: u32,
}
