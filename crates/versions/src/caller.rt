//! The one who asks.
ghost use Rattle.std.specs.Prelude.{◌≡◌, ◌≤◌, [], length, max, IfSome, IfNone};
ghost use Rattle.ann_defs.specs.declared.limits.TheConstants.{MAX_BEAM};
ghost use Rattle.ann_defs.specs.Distance.{dim_of};
ghost use Rattle.beam_search.specs.Serving.{Serves};
ghost use Rattle.versions.specs.Course.{answer_at, course_of, total_of};
ghost use Rattle.versions.specs.Standing.{RoseOrLast, starting};

use crate::answer::Answer;
use crate::asking::ask;
use crate::door::Door;
use crate::note::BatchNote;
use crate::rule::RuledFactory;
use beam_search::Scratch;
use std::marker::Model;
use vamana_build::Plan;

/// Asks in the shared graph beside its publisher, from any thread. It stays when the publisher ends; then its queries are
/// refused.
#[derive(Drop)]
pub struct Caller<'p> {
    door: Door<'p>,
}

impl<'p> Model for Caller<'p> {
    ghost use Rattle.versions.specs.Standing.{Standing};

    ghost Value = { Standing };

    ghost view = { λ c. c.door };
}

impl<'p> Caller<'p> {
    pub(crate) fn new(from: &RuledFactory<'p>, plan: &'p Plan<'p>) -> Caller<'p>
        ensures { result ≡ starting (course_of plan.now) }
    {
        Caller {
            door: Door::new(from, plan),
        }
    }

    /// Takes in that the note's batch was published: from then on this caller's answers are of that batch or a later
    /// one. The note is of the same sharing.
    pub fn told(&mut self, note: BatchNote<'p>)
        requires { note.course ≡ self.old.course }
        ensures course { self.new.course ≡ self.old.course }
        ensures seen { self.new.seen ≡ max self.old.seen note.entry.batch }
        ensures refused { self.old.refused ≤ self.new.refused }
    {
        self.door.learn(note);
    }

    /// The greatest batch that this caller was told of or answered in; 1 at first.
    pub fn seen(&self) -> u32
        ensures { result ≡ self.now.seen }
    {
        self.door.seen()
    }

    /// How many entries were refused. It stays at the last value of u64.
    pub fn refused(&self) -> u64
        ensures { result ≡ self.now.refused }
    {
        self.door.refused()
    }

    /// Answers a query in the graph after some whole batch, and returns the number of that batch: the k nearest of what
    /// GreedySearch finds there from the plan's start. It takes no memory and waits for nobody.
    ///
    /// None comes only where entering the shared graph was refused, which `refused` counts; then `out` is empty.
    pub fn query(
        &mut self,
        query: &[u8],
        k: u32,
        beam: u32,
        scratch: &mut Scratch,
        out: &mut Answer,
    ) -> Option<u32>
        requires query { length query.now ≡ dim_of self.old.course.points }
        requires beam { (1 ≤ beam) × (beam ≤ MAX_BEAM) }
        requires k { (1 ≤ k) × (k ≤ beam) }
        requires room { k ≤ out.old.room }
        requires scratch { Serves (length self.old.course.points) beam scratch.old }
        ensures late { IfSome result (λ v. self.old.seen ≤ v) }
        ensures within { IfSome result (λ v. v ≤ total_of self.old.course) }
        ensures answer { IfSome result (λ v. out.new.pairs ≡ answer_at self.old.course v beam k query.now) }
        ensures seen { IfSome result (λ v. self.new.seen ≡ v) }
        ensures none { IfNone result (RoseOrLast self.old.refused self.new.refused × (out.new.pairs ≡ []) × (self.new.seen ≡ self.old.seen)) }
        ensures course { self.new.course ≡ self.old.course }
        ensures refused { self.old.refused ≤ self.new.refused }
        ensures room { out.old.room ≤ out.new.room }
        ensures serves { Serves (length self.old.course.points) beam scratch.new }
    {
        let Some(visit) = self.door.enter() else {
            out.clear();
            return None;
        };
        let shared = visit.shared();
        let batch = shared.batch;
        ask(shared, query, k, beam, scratch, out);
        self.door.leave(visit);
        Some(batch)
    }
}
