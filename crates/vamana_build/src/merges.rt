//! The merges of a build.
ghost use Rattle.std.specs.Prelude.{◌≡◌, length};
ghost use Rattle.ann_defs.specs.BatchInsert.{merge_of};
ghost use Rattle.beam_search.specs.Serving.{Serves};

use crate::new_rows::NewRows;
use crate::settled::count_of;
use batch_insert::{Merging, Pair, merged_row};
use beam_search::{Scratch, room};
use robust_prune::RobustPrune;

/// Merges rows of the graph before a batch by RobustPrune, with the settings of the plan and the factor of the batch, in
/// the room of a search's scratch.
///
/// `counts` tells of each point how many ids at the front of its row before the batch one prune left together; a new row
/// is a prune's as a whole.
#[derive(Drop)]
pub(crate) struct Merges<'a> {
    pub rows: &'a NewRows<'a>,
    pub counts: &'a [u8],
    ghost whole: { length counts.now ≡ length rows.now.plan.now.points.now.vectors },
}

impl<'a> Merging for Merges<'a> {
    ghost use Rattle.ann_defs.proofs.GoodRows.{merged_good, prune_without_good};
    ghost use Rattle.ann_defs.specs.RobustPrune.{pruned_row};
    ghost use Rattle.vamana_build.specs.Builds.{build_by};
    ghost use Rattle.vamana_build.specs.Settled.{are_settled, laid_count};

    type Scratch = Scratch;

    ghost count = { λ m. length m.rows.now.plan.now.points.now.vectors };

    ghost most = { λ m. m.rows.now.plan.now.settings.degree };

    ghost merged = { λ m t row sources. merge_of m.rows.now.plan.now.points.now.vectors m.rows.now.alpha.num m.rows.now.alpha.den m.rows.now.plan.now.settings.degree t row sources };

    ghost knows = { λ m t row. are_settled (build_by m.rows.now.plan.now.points.now.vectors m.rows.now.plan.now.settings m.rows.now.alpha) t row (laid_count m.rows.now.batch.now m.counts.now t row) };

    ghost serves = { λ m s. Serves (length m.rows.now.plan.now.points.now.vectors) m.rows.now.plan.now.settings.beam s };

    fn degree(&self) -> u32 {
        self.rows.plan.settings.degree
    }

    fn merge(
        &self,
        scratch: &mut Scratch,
        target: u32,
        row: &[u32],
        sources: &[Pair],
        out: &mut [u32],
    ) -> usize {
        let pruning = RobustPrune {
            points: self.rows.plan.points,
            alpha: self.rows.alpha,
            degree: self.rows.plan.settings.degree,
        };
        let settled = count_of(self.rows.batch, self.counts, target, row);
        merged_row(&pruning, target, row, settled, sources, room(scratch), out)
    }

    ghost good = { λ m t row sources at good are. merged_good (length m.rows.now.plan.now.points.now.vectors) m.rows.now.plan.now.settings.degree t m.rows.now.plan.now.settings.degree (λ u set. pruned_row m.rows.now.plan.now.points.now.vectors u set m.rows.now.alpha.num m.rows.now.alpha.den m.rows.now.plan.now.settings.degree) row sources
        (λ set inside. prune_without_good m.rows.now.plan.now.points.now.vectors t set m.rows.now.alpha.num m.rows.now.alpha.den m.rows.now.plan.now.settings.degree (length m.rows.now.plan.now.points.now.vectors) inside) good are.inside are.distinct are.others };
}
