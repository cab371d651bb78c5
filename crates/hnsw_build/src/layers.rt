//! The layers before a batch.
ghost use Rattle.std.specs.Prelude.{◌≡◌, ◌+◌, ◌*◌, ◌≤◌, length};
ghost use Rattle.ann_defs.specs.declared.limits.TheConstants.{MAX_WORDS};
ghost use Rattle.hnsw_build.specs.HnswBuilds.{base_at, upper_at};

use crate::plan::HnswPlan;
use graph_rows::{FlatGraph, Layer};

/// The layers of a plan after `done` batches. `upper` are those from layer 1 on.
#[derive(Drop)]
pub(crate) struct Layers<'a> {
    pub plan: &'a HnswPlan<'a>,
    pub done: u32,
    pub base: &'a FlatGraph,
    pub upper: &'a [Layer],
    ghost base_is: { base.now ≡ base_at plan.now.points.now.vectors plan.now.settings plan.now.levels.items done },
    ghost upper_is: { upper.now ≡ upper_at plan.now.points.now.vectors plan.now.settings plan.now.levels.items done },
    ghost words: { length plan.now.points.now.vectors * (plan.now.settings.degree + plan.now.settings.degree + 1) ≤ MAX_WORDS },
}
