//! The merges of a layer.
ghost use Rattle.std.specs.Prelude.{◌≤◌, true, length};
ghost use Rattle.ann_defs.specs.declared.limits.TheConstants.{MAX_DEGREE};
ghost use Rattle.ann_defs.specs.BatchInsert.{merge_of};
ghost use Rattle.beam_search.specs.Serving.{Serves};

use crate::plan::HnswPlan;
use ann_defs::Alpha;
use batch_insert::{Merging, Pair, merged_row};
use beam_search::{Scratch, room};
use robust_prune::RobustPrune;

/// Merges rows of a layer by RobustPrune at 1/1, in the room of a search's scratch. `bound` is the greatest length of a
/// row of the layer.
#[derive(Drop)]
pub(crate) struct Merges<'a> {
    pub plan: &'a HnswPlan<'a>,
    pub bound: u32,
    ghost narrow: { bound ≤ MAX_DEGREE },
}

impl<'a> Merging for Merges<'a> {
    ghost use Rattle.ann_defs.proofs.GoodRows.{merged_good, prune_without_good};
    ghost use Rattle.ann_defs.specs.RobustPrune.{pruned_row};

    type Scratch = Scratch;

    ghost count = { λ m. length m.plan.now.points.now.vectors };

    ghost most = { λ m. m.bound };

    ghost merged = { λ m t row sources. merge_of m.plan.now.points.now.vectors 1 1 m.bound t row sources };

    ghost knows = { λ m t row. true };

    ghost serves = { λ m s. Serves (length m.plan.now.points.now.vectors) m.plan.now.settings.beam s };

    fn degree(&self) -> u32 {
        self.bound
    }

    fn merge(
        &self,
        scratch: &mut Scratch,
        target: u32,
        row: &[u32],
        sources: &[Pair],
        out: &mut [u32],
    ) -> usize {
        let pruning = RobustPrune {
            points: self.plan.points,
            alpha: Alpha { num: 1, den: 1 },
            degree: self.bound,
        };
        merged_row(&pruning, target, row, 0, sources, room(scratch), out)
    }

    ghost good = { λ m t row sources at good are. merged_good (length m.plan.now.points.now.vectors) m.bound t m.bound (λ u set. pruned_row m.plan.now.points.now.vectors u set 1 1 m.bound) row sources
        (λ set inside. prune_without_good m.plan.now.points.now.vectors t set 1 1 m.bound (length m.plan.now.points.now.vectors) inside) good are.inside are.distinct are.others };
}
