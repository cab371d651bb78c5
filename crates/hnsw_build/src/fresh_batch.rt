//! A batch with its new rows.
ghost use Rattle.std.specs.Prelude.{◌≡◌, ◌<◌, ◌≤◌, length, map};
ghost use Rattle.std.specs.List.{All};
ghost use Rattle.ann_defs.specs.Ordered.{Ascends};
ghost use Rattle.hnsw_build.specs.Grown.{build_in, layers_in};
ghost use Rattle.hnsw_build.specs.Wanted.{rows_of_point};

use crate::layers::Layers;

/// The points of a batch, in ascending order, with the new rows of each in the layers that it is in.
#[derive(Drop)]
pub(crate) struct FreshBatch<'a> {
    pub layers: &'a Layers<'a>,
    pub ids: &'a [u32],
    pub rows: &'a [Vec<u32>],
    ghost inside: { All (λ p. p < length layers.now.plan.now.points.now.vectors) ids.now },
    ghost ascend: { Ascends ids.now },
    ghost few: { length ids.now ≤ length layers.now.plan.now.points.now.vectors },
    ghost rows_are: { map (λ y. y.items) rows.now ≡ map (rows_of_point (build_in layers.now) (layers_in layers.now)) ids.now },
}
