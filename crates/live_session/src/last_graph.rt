//! The builder's graph, searched without the callers.
ghost use Rattle.std.specs.Prelude.{◌≡◌, ◌<◌, length};
ghost use Rattle.ann_defs.specs.Distance.{point};
ghost use Rattle.beam_search.specs.Serving.{Serves};
ghost use Rattle.versions.specs.Course.{answer_at, course_of, graph_after};
ghost use Rattle.live_session.specs.Asked.{Fits};
ghost use Rattle.live_session.specs.Rows.{pushed};

use crate::asking::Asking;
use crate::row::AnswerRow;
use beam_search::{Scratch, found, search};
use graph_rows::FlatGraph;
use vamana_build::Plan;

/// The graph of a plan after this batch.
#[derive(Drop)]
pub(crate) struct LastGraph<'a> {
    pub plan: &'a Plan<'a>,
    pub graph: &'a FlatGraph,
    pub batch: u32,
    ghost after: { graph.now ≡ graph_after (course_of plan.now) batch },
}

impl<'a> LastGraph<'a> {
    /// The graph of a plan after this batch.
    pub fn of(plan: &'a Plan<'a>, graph: &'a FlatGraph, batch: u32) -> LastGraph<'a>
        requires { graph.now ≡ graph_after (course_of plan.now) batch }
        ensures plan { result.plan.now ≡ plan.now }
        ensures batch { result.batch ≡ batch }
    {
        LastGraph { plan, graph, batch }
    }

    /// Searches for a query, and puts its answer into a row.
    pub fn answer(
        &self,
        asking: &Asking<'_>,
        query: u32,
        scratch: &mut Scratch,
        row: &mut AnswerRow,
    )
        requires fits { Fits (course_of self.now.plan.now) asking.now }
        requires query { query < length asking.now.queries.now.vectors }
        requires serves { Serves (length self.now.plan.now.points.now.vectors) asking.now.beam scratch.old }
        requires k { row.old.k ≡ asking.now.k }
        requires room { length row.old.answers < row.old.size }
        ensures row { row.new ≡ pushed row.old self.now.batch (answer_at (course_of self.now.plan.now) self.now.batch asking.now.beam asking.now.k (point asking.now.queries.now.vectors query)) }
        ensures serves { Serves (length self.now.plan.now.points.now.vectors) asking.now.beam scratch.new }
    {
        let asked = asking.queries.at(query);
        search(
            self.plan.points,
            self.graph,
            &[self.plan.start()],
            asked,
            asking.beam,
            scratch,
        );
        let nears = found(scratch);
        let len = nears.len().min(asking.k as usize);
        row.push(self.batch, &nears[..len]);
    }
}
