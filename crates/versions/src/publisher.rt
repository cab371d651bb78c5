//! The one who publishes.
ghost use Rattle.std.specs.Prelude.{◌≡◌, ◌+◌, ◌<◌, ◌≤◌, ◌^◌, None, Some, drop, IfOk, IfErr, IfSome, MatchResult};
ghost use Rattle.left_right.specs.Sides.{view};
ghost use Rattle.versions.specs.Course.{LeadsFrom, course_of, graph_after, total_of};
ghost use Rattle.versions.specs.Ready.{IsReady};
ghost use Rattle.versions.specs.Rule.{shared_course};
ghost use Rattle.versions.specs.Standing.{opening};
ghost use Rattle.versions.specs.Suffices.{Suffices};

use crate::door::informed;
use crate::note::BatchNote;
use crate::rule::{RuledFactory, RuledReader, RuledWriter, Saw};
use crate::shared::Shared;
use ann_shelf::NoMemory;
use graph_rows::FlatGraph;
use left_right::writer::Writer;
use std::alloc::Global;
use std::marker::Model;
use std::sync::Wait;
use vamana_build::{BatchChange, Plan};

/// Publishes the graphs of a build one after another. It can't be dropped: `end` uses it up.
pub struct Publisher<'p> {
    plan: &'p Plan<'p>,
    batch: u32,
    // It is away only while `note` or `publish` runs.
    writer: Option<RuledWriter<'p>>,
}

impl<'p> Model for Publisher<'p> {
    ghost use Rattle.std.specs.Prelude.{drop, IsSomeAnd};
    ghost use Rattle.left_right.specs.Sides.{view as known_by};
    ghost use Rattle.versions.specs.Course.{course_of};
    ghost use Rattle.versions.specs.Standing.{Desk};
    ghost use Rattle.versions.specs.Ready.{IsReady};

    ghost Value = { Desk };

    ghost view = { λ p. record { course = course_of p.plan.now; batch = p.batch } };

    ghost invariant = { λ p. IsSomeAnd p.writer (λ w. IsReady (course_of p.plan.now) p.batch w.desk.shown.value (drop w.behind w.log.items) (known_by w.desk.place)) };
}

impl<'p> Publisher<'p> {
    // The publisher that shows the graph after the first batch, with room for so many readers.
    pub(crate) fn new(
        alloc: Global,
        plan: &'p Plan<'p>,
        first: FlatGraph,
        readers: usize,
    ) -> Result<Publisher<'p>, NoMemory>
        requires first { first ≡ graph_after (course_of plan.now) 1 }
        requires total { 1 ≤ total_of (course_of plan.now) }
        requires readers { (0 < readers) × (readers < 2 ^ 32) }
        ensures { IfOk result (λ p. p ≡ opening (course_of plan.now)) }
    {
        let spare = Shared {
            plan,
            batch: 1,
            graph: first.copy(alloc)?,
        };
        let shown = Shared {
            plan,
            batch: 1,
            graph: first,
        };
        match Writer::new(alloc, shown, spare, readers) {
            Ok(writer) => Ok(Publisher {
                plan,
                batch: 1,
                writer: Some(writer),
            }),
            Err(_) => Err(NoMemory),
        }
    }

    // What makes the callers' readers.
    pub(crate) fn factory(&self) -> &RuledFactory<'p> {
        let Some(writer) = &self.writer else {
            unreachable!()
        };
        writer.factory()
    }

    /// The last published batch, 1 at first.
    pub fn batch(&self) -> u32
        ensures { result ≡ self.now.batch }
    {
        self.batch
    }

    /// One more note of the last published batch. Each note tells one caller.
    pub fn note(&mut self) -> BatchNote<'p>
        ensures note { result ≡ self.old }
        ensures same { self.new ≡ self.old }
    {
        let Some(writer) = self.writer.take() else {
            unreachable!()
        };
        let (writer, reader) = noted(writer, self.batch);
        put_back(&mut self.writer, writer);
        BatchNote {
            plan: self.plan,
            batch: self.batch,
            reader,
        }
    }

    /// Publishes the change of the next batch as one step, and returns a note of it. It may wait for readers.
    ///
    /// Fails only with `NoMemory`; then nothing was published, and the change comes back.
    pub fn publish<R: Wait>(
        &mut self,
        rt: &R,
        change: BatchChange,
    ) -> Result<BatchNote<'p>, (NoMemory, BatchChange)>
        requires { LeadsFrom self.old.course self.old.batch change }
        ensures published { IfOk result (λ n. (n ≡ self.new) × (self.new ≡ record self.old { batch = self.old.batch + 1 })) }
        ensures refused { IfErr result (λ e. (e.1 ≡ change) × (self.new ≡ self.old)) }
    {
        let Some(writer) = self.writer.take() else {
            unreachable!()
        };
        let batch = change.batch();
        let (writer, shown) = published(rt, writer, change);
        put_back(&mut self.writer, writer);
        match shown {
            Ok(()) => {
                self.batch = batch;
                Ok(self.note())
            }
            Err(change) => Err((NoMemory, change)),
        }
    }

    /// Uses the publisher up, and gives its memory back. It may wait for readers. A later query of a caller may be
    /// refused.
    pub fn end<R: Wait>(self, rt: &R) {
        let Publisher {
            plan: _,
            batch: _,
            writer,
        } = self;
        if let Some(writer) = writer {
            writer.take(rt);
        }
    }
}

fn put_back<'p>(home: &mut Option<RuledWriter<'p>>, writer: RuledWriter<'p>)
    requires { home.old ≡ None }
    ensures { home.new ≡ Some writer.entry }
{
    if let Some(_left) = home.replace(writer) {
        unreachable!()
    }
}

// The writer, and a reader that knows what it knows. Of the first batch every reader knows.
fn noted<'p>(mut writer: RuledWriter<'p>, batch: u32) -> (RuledWriter<'p>, Option<RuledReader<'p>>)
    requires { IsReady (shared_course writer.desk.shown.value) batch writer.desk.shown.value (drop writer.behind writer.log.items) (view writer.desk.place) }
    ensures reader { IfSome result.1 (λ r. Suffices (shared_course writer.entry.desk.shown.value) batch (view r.place)) }
    ensures ready { IsReady (shared_course writer.entry.desk.shown.value) batch result.0.desk.shown.value (drop result.0.behind result.0.log.items) (view result.0.desk.place) }
{
    if batch == 1 {
        return (writer, None);
    }
    let reader = informed(&mut writer);
    (writer, reader)
}

// The change comes back where there is no memory.
fn published<'p, R: Wait>(
    rt: &R,
    mut writer: RuledWriter<'p>,
    change: BatchChange,
) -> (RuledWriter<'p>, Result<(), BatchChange>)
    requires ready { let x = writer.desk.shown.value in IsReady (shared_course x) x.batch x (drop writer.behind writer.log.items) (view writer.desk.place) }
    requires leads { let x = writer.desk.shown.value in LeadsFrom (shared_course x) x.batch change }
    ensures { let x = writer.entry.desk.shown.value in MatchResult result.1 (λ _. IsReady (shared_course x) (x.batch + 1) result.0.desk.shown.value (drop result.0.behind result.0.log.items) (view result.0.desk.place)) (λ c. (c ≡ change) × IsReady (shared_course x) x.batch result.0.desk.shown.value (drop result.0.behind result.0.log.items) (view result.0.desk.place)) }
{
    if let Err(change) = writer.append(change) {
        return (writer, Err(change));
    }
    let (writer, shown) = writer.publish_as::<Saw, R>(rt);
    match shown {
        Ok(()) => (writer, Ok(())),
        Err(_) => unreachable!(),
    }
}
