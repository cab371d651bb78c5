//! What is asked of which index.
ghost use Rattle.std.specs.Prelude.{◌≡◌, ◌≤◌, length};
ghost use Rattle.ann_defs.specs.declared.limits.TheConstants.{MAX_BEAM};
ghost use Rattle.graph_rows.proofs.WellFormedProps.{well_formed_prop};
ghost use Rattle.ann_defs.specs.Distance.{dim_of};
ghost use Rattle.graph_rows.specs.View.{contents};
ghost use Rattle.graph_rows.specs.WellFormed.{IsWellFormed};

use bin_files::Points;
use graph_rows::Index;

/// Queries of one index.
///
/// `beam` is `L` in DiskANN and `ef` in HNSW, the greatest length of each search's list; the `k` nearest of that list
/// are answered. It owns nothing and takes no memory.
#[derive(Drop)]
pub struct QueryBatch<'a> {
    pub points: &'a Points,
    pub index: &'a Index,
    pub queries: &'a Points,
    pub beam: u32,
    pub k: u32,
    ghost well_formed: { IsWellFormed (contents index.now) } by { well_formed_prop (contents index.now) },
    ghost count: { index.now.count ≡ length points.now.vectors },
    ghost dim: { dim_of queries.now.vectors ≡ dim_of points.now.vectors },
    ghost wide: { (1 ≤ beam) × (beam ≤ MAX_BEAM) },
    ghost few: { (1 ≤ k) × (k ≤ beam) },
}

impl<'a> QueryBatch<'a> {
    /// These queries of this index, which is over these points.
    pub fn new(
        points: &'a Points,
        index: &'a Index,
        queries: &'a Points,
        beam: u32,
        k: u32,
    ) -> QueryBatch<'a>
        requires index { IsWellFormed (contents index.now) }
        requires count { index.now.count ≡ length points.now.vectors }
        requires dim { dim_of queries.now.vectors ≡ dim_of points.now.vectors }
        requires beam { (1 ≤ beam) × (beam ≤ MAX_BEAM) }
        requires k { (1 ≤ k) × (k ≤ beam) }
        ensures points { result.points.now ≡ points.now }
        ensures index { result.index.now ≡ index.now }
        ensures queries { result.queries.now ≡ queries.now }
        ensures beam { result.beam ≡ beam }
        ensures k { result.k ≡ k }
    {
        QueryBatch {
            points,
            index,
            queries,
            beam,
            k,
        }
    }
}
