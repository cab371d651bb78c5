//! The new rows of a batch, as tasks.
ghost use Rattle.std.specs.Prelude.{◌+◌, ◌<◌, ◌≤◌, length};
ghost use Rattle.std.specs.List.{All};
ghost use Rattle.std.proofs.Props.{props};
ghost use Rattle.ann_defs.specs.Graph.{AreGoodRows};
ghost use Rattle.ann_defs.specs.Ordered.{Ascends};
ghost use Rattle.vamana_build.specs.Builds.{build_by};
ghost use Rattle.beam_search.specs.Serving.{Serves};
ghost use Rattle.vamana_build.specs.Wanted.{new_blocks};

use crate::plan::Plan;
use crate::row::new_row;
use ann_defs::Alpha;
use batch_insert::seal;
use beam_search::Scratch;
use graph_rows::FlatGraph;
use steal_pool::{LEAST_SEARCHES, Work};

/// A task for each point of a batch: its new row in the graph before the batch, pruned by the factor of the batch. The points are in ascending order.
#[derive(Drop)]
pub(crate) struct NewRows<'a> {
    pub plan: &'a Plan<'a>,
    pub alpha: Alpha,
    pub graph: &'a FlatGraph,
    pub batch: &'a [u32],
    ghost good: { AreGoodRows (length plan.now.points.now.vectors) plan.now.settings.degree graph.now.rows } by { Prim.hlevel props },
    ghost batch_fits: { All (λ p. p < length plan.now.points.now.vectors) batch.now },
    ghost ascend: { Ascends batch.now },
    ghost few: { length batch.now ≤ length plan.now.points.now.vectors },
}

impl<'a> Work for NewRows<'a> {
    type Scratch = Scratch;

    ghost want = { λ w. new_blocks (build_by w.plan.now.points.now.vectors w.plan.now.settings w.alpha) w.graph.now.rows w.batch.now };

    ghost wide = { λ w. w.plan.now.settings.degree + 1 };

    ghost serves = { λ w s. Serves (length w.plan.now.points.now.vectors) w.plan.now.settings.beam s };

    fn tasks(&self) -> u32 {
        self.batch.len() as u32
    }

    fn width(&self) -> u32 {
        self.plan.settings.degree + 1
    }

    fn least(&self) -> u32 {
        LEAST_SEARCHES
    }

    fn run(&self, scratch: &mut Scratch, task: u32, out: &mut [u32]) {
        let len = new_row(
            self.plan,
            self.alpha,
            self.graph,
            self.batch[task as usize],
            scratch,
            &mut out[1..],
        );
        seal(out, len);
    }
}
