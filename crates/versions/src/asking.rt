//! A query in the shared graph.
ghost use Rattle.std.specs.Prelude.{◌≡◌, ◌≤◌, length};
ghost use Rattle.ann_defs.specs.Distance.{dim_of};
ghost use Rattle.beam_search.specs.Serving.{Serves};
ghost use Rattle.versions.specs.Course.{answer_at};
ghost use Rattle.versions.specs.Rule.{IsVersion, shared_course};

use crate::answer::Answer;
use crate::shared::Shared;
use beam_search::{Scratch, found, search};

/// The k nearest of what GreedySearch finds from the plan's start. It takes no memory and can't fail.
pub(crate) fn ask(
    shared: &Shared,
    query: &[u8],
    k: u32,
    beam: u32,
    scratch: &mut Scratch,
    out: &mut Answer,
)
    requires version { IsVersion shared.now }
    requires query { length query.now ≡ dim_of (shared_course shared.now).points }
    requires room { k ≤ out.old.room }
    requires scratch { Serves (length (shared_course shared.now).points) beam scratch.old }
    ensures answer { out.new.pairs ≡ answer_at (shared_course shared.now) shared.now.batch beam k query.now }
    ensures room { out.new.room ≡ out.old.room }
    ensures serves { Serves (length (shared_course shared.now).points) beam scratch.new }
{
    search(
        shared.plan.points,
        &shared.graph,
        &[shared.plan.start()],
        query,
        beam,
        scratch,
    );
    out.keep_first(found(scratch), k);
}
