//! The one way to the shared value: what enters it, learns of it, and counts the entries that were refused.
ghost use Rattle.std.specs.Prelude.{◌≡◌, ◌≤◌, max, IfSome, IfNone};
ghost use Rattle.left_right.specs.Sides.{view};
ghost use Rattle.versions.specs.Course.{course_of};
ghost use Rattle.versions.specs.Rule.{larger, newcomer};
ghost use Rattle.versions.specs.Standing.{RoseOrLast};
ghost use Rattle.versions.specs.Suffices.{Suffices};
ghost use Rattle.versions.specs.Visiting.{Visits};

use crate::course::is_same_course;
use crate::note::BatchNote;
use crate::rule::{Learnt, RuledFactory, RuledReader, RuledWriter, Saw, Told, Versions, View};
use crate::shared::Shared;
use left_right::reader::Reading;
use std::marker::Model;
use vamana_build::Plan;

/// A caller's way in. It has no reader where `left_right` refused one.
#[derive(Drop)]
pub(crate) struct Door<'p> {
    plan: &'p Plan<'p>,
    reader: Option<RuledReader<'p>>,
    seen: u32,
    refused: u64,
}

impl<'p> Model for Door<'p> {
    ghost use Rattle.std.specs.Prelude.{IfSome};
    ghost use Rattle.left_right.specs.Sides.{view as known_by};
    ghost use Rattle.versions.specs.Course.{course_of};
    ghost use Rattle.versions.specs.Standing.{Standing};
    ghost use Rattle.versions.specs.Suffices.{Suffices};

    ghost Value = { Standing };

    ghost view = { λ d. record { course = course_of d.plan.now; seen = d.seen; refused = d.refused } };

    ghost invariant = { λ d. IfSome d.reader (λ r. Suffices (course_of d.plan.now) d.seen (known_by r.place)) };
}

/// A stay inside. It ends by `leave`.
pub(crate) struct Visit<'p> {
    reading: Reading<Shared<'p>, View, Versions>,
}

impl<'p> Visit<'p> {
    pub fn shared(&self) -> &Shared<'p>
        ensures { result.now ≡ self.now.reading.part.value }
    {
        self.reading.get()
    }
}

#[tactic(auto, using(crate::proofs::Keeping::enters, crate::proofs::Keeping::admits))]
impl<'p> Door<'p> {
    /// Asks for a reader, and looks once whether it reads graphs of this plan.
    pub fn new(from: &RuledFactory<'p>, plan: &'p Plan<'p>) -> Door<'p>
        ensures course { result.course ≡ course_of plan.now }
        ensures counts { (result.seen ≡ 1) × (result.refused ≡ 0) }
    {
        Door {
            plan,
            reader: first_reader(from, plan),
            seen: 1,
            refused: 0,
        }
    }

    pub fn seen(&self) -> u32
        ensures { result ≡ self.now.seen }
    {
        self.seen
    }

    pub fn refused(&self) -> u64
        ensures { result ≡ self.now.refused }
    {
        self.refused
    }

    /// Goes in. Where there is no reader, or the writer is gone, that is counted.
    pub fn enter(&mut self) -> Option<Visit<'p>>
        ensures some { IfSome result (λ v. Visits self.old v.reading.part.value (view v.reading.place)) }
        ensures none { IfNone result (RoseOrLast self.old.refused self.new.refused) }
        ensures same { (self.new.course ≡ self.old.course) × (self.new.seen ≡ self.old.seen) × (self.old.refused ≤ self.new.refused) }
    {
        if let Some(reader) = self.reader.take() {
            match reader.enter_as::<Saw>() {
                Ok(reading) => return Some(Visit { reading }),
                Err(reader) => self.reader = Some(reader),
            }
        }
        self.refused = self.refused.saturating_add(1);
        None
    }

    /// Goes out. What was found inside was seen.
    pub fn leave(&mut self, visit: Visit<'p>)
        requires { Visits self.old visit.reading.part.value (view visit.reading.place) }
        ensures { self.new ≡ record self.old { seen = visit.entry.reading.part.value.batch } }
    {
        let batch = visit.shared().batch;
        let Visit { reading } = visit;
        self.seen = batch;
        self.reader = Some(reading.leave());
    }

    /// Takes in that the note's batch was published: the note's reader, which knows of it, takes the place of the own one.
    ///
    /// A note without a reader makes the own one look once whether it finds that batch or a later one. Where it is
    /// refused, which is counted, or finds an older one, it is given up. A door without a reader stays without.
    pub fn learn(&mut self, note: BatchNote<'p>)
        requires { note.course ≡ self.old.course }
        ensures course { self.new.course ≡ self.old.course }
        ensures seen { self.new.seen ≡ max self.old.seen note.entry.batch }
        ensures refused { self.old.refused ≤ self.new.refused }
    {
        let BatchNote {
            plan: _,
            batch,
            reader: told,
        } = note;
        if batch <= self.seen {
            return;
        }
        self.seen = batch;
        let Some(own) = self.reader.take() else {
            return;
        };
        if told.is_some() {
            self.reader = told;
            return;
        }
        match own.enter_as::<Saw>() {
            Ok(reading) => {
                let is_late = batch <= reading.get().batch;
                let reader = reading.leave();
                if is_late {
                    self.reader = Some(reader);
                }
            }
            Err(_) => self.refused = self.refused.saturating_add(1),
        }
    }
}

// A reader that has looked once, and found a graph of this plan.
#[tactic(auto, using(crate::proofs::Keeping::enters, crate::proofs::Keeping::admits))]
fn first_reader<'p>(from: &RuledFactory<'p>, plan: &'p Plan<'p>) -> Option<RuledReader<'p>>
    ensures { IfSome result (λ r. Suffices (course_of plan.now) 1 (view r.place)) }
{
    let reading = from.reader().ok()?.enter_as::<Saw>().ok()?;
    let is_ours = is_same_course(reading.get().plan, plan);
    let reader = reading.leave();
    if is_ours { Some(reader) } else { None }
}

/// A new reader that has learnt what the writer knows, for a note to bring. None where `left_right` refuses it.
#[tactic(auto, using(crate::proofs::Keeping::admits, crate::proofs::Keeping::forks, crate::proofs::Keeping::merges))]
pub(crate) fn informed<'p>(writer: &mut RuledWriter<'p>) -> Option<RuledReader<'p>>
    ensures told { IfSome result (λ r. view r.place ≡ larger newcomer (view writer.old.desk.place)) }
    ensures kept { (writer.new.desk.shown ≡ writer.old.desk.shown) × (writer.new.log ≡ writer.old.log) × (writer.new.behind ≡ writer.old.behind) × (view writer.new.desk.place ≡ view writer.old.desk.place) }
{
    let mut reader = writer.factory().reader().ok()?;
    reader.learn::<Learnt>(writer.tell::<Told>());
    Some(reader)
}
