//! A caller with its room, and what was noticed of its answers.
ghost use Rattle.std.specs.Prelude.{◌≡◌, ◌≤◌, length, IfOk};
ghost use Rattle.std.specs.List.{All};
ghost use Rattle.ann_defs.specs.declared.limits.TheConstants.{MAX_BEAM, MAX_CALLERS};
ghost use Rattle.ann_defs.specs.Distance.{dim_of};
ghost use Rattle.versions.specs.Course.{course_of};
ghost use Rattle.versions.specs.Standing.{starting};
ghost use Rattle.live_tests.specs.Seated.{CanAsk};

use ann_defs::{MAX_BEAM, MAX_CALLERS, Near};
use ann_shelf::NoMemory;
use beam_search::Scratch;
use std::alloc::Global;
use std::marker::Model;
use vamana_build::Plan;
use versions::{Answer, BatchNote, Caller};

/// A caller, its scratch, and its last answer.
#[derive(Drop)]
pub(crate) struct Seat<'p> {
    caller: Caller<'p>,
    scratch: Scratch,
    out: Answer,
    // How many queries were answered, in which batch the last one, and whether a batch was before that of an earlier
    // answer.
    answered: u32,
    last: u32,
    fell: bool,
}

impl<'p> Model for Seat<'p> {
    ghost use Rattle.live_tests.specs.Seated.{Seated};

    ghost Value = { Seated };

    ghost view = { λ s. record { caller = s.caller; scratch = s.scratch; out = s.out } };
}

impl<'p> Seat<'p> {
    pub fn new(
        alloc: Global,
        plan: &Plan<'_>,
        caller: Caller<'p>,
        beam: u32,
        k: u32,
    ) -> Result<Seat<'p>, NoMemory>
        requires course { caller.course ≡ course_of plan.now }
        requires beam { (1 ≤ beam) × (beam ≤ MAX_BEAM) }
        requires k { (1 ≤ k) × (k ≤ beam) }
        ensures { IfOk result (CanAsk (course_of plan.now) beam k) }
    {
        let scratch = Scratch::new(alloc, plan.points.count(), beam)?;
        let out = Answer::with_room(alloc, k)?;
        Ok(Seat {
            caller,
            scratch,
            out,
            answered: 0,
            last: 0,
            fell: false,
        })
    }

    /// Asks, and notices in which batch the answer is.
    pub fn ask(&mut self, _plan: &Plan<'_>, query: &[u8], beam: u32, k: u32) -> Option<u32>
        requires can { CanAsk (course_of _plan.now) beam k self.old }
        requires query { length query.now ≡ dim_of _plan.now.points.now.vectors }
        requires beam { (1 ≤ beam) × (beam ≤ MAX_BEAM) }
        requires k { (1 ≤ k) × (k ≤ beam) }
        ensures { CanAsk (course_of _plan.now) beam k self.new }
    {
        let batch = self
            .caller
            .query(query, k, beam, &mut self.scratch, &mut self.out);
        self.notice(batch);
        batch
    }

    fn notice(&mut self, batch: Option<u32>)
        ensures { self.new ≡ self.old }
    {
        let Some(batch) = batch else {
            return;
        };
        self.answered = self.answered.saturating_add(1);
        if batch < self.last {
            self.fell = true;
        }
        self.last = batch;
    }

    /// Tells the caller of a batch.
    pub fn told(&mut self, _plan: &Plan<'_>, note: BatchNote<'p>, _beam: u32, _k: u32)
        requires can { CanAsk (course_of _plan.now) _beam _k self.old }
        requires note { note.course ≡ course_of _plan.now }
        ensures { CanAsk (course_of _plan.now) _beam _k self.new }
    {
        self.caller.told(note);
    }

    pub fn pairs(&self) -> &[Near] {
        self.out.pairs()
    }

    pub fn seen(&self) -> u32 {
        self.caller.seen()
    }

    pub fn refused(&self) -> u64 {
        self.caller.refused()
    }

    pub fn answered(&self) -> u32 {
        self.answered
    }

    pub fn fell(&self) -> bool {
        self.fell
    }
}

/// A seat for each caller.
pub(crate) fn seats_for<'p>(
    alloc: Global,
    plan: &Plan<'_>,
    mut callers: Vec<Caller<'p>>,
    beam: u32,
    k: u32,
) -> Result<Vec<Seat<'p>>, NoMemory>
    requires callers { All (λ x. x ≡ starting (course_of plan.now)) callers.items }
    requires beam { (1 ≤ beam) × (beam ≤ MAX_BEAM) }
    requires k { (1 ≤ k) × (k ≤ beam) }
    ensures { IfOk result (λ v. All (CanAsk (course_of plan.now) beam k) v.items) }
{
    let mut seats = Vec::new(alloc);
    for _ in 0..MAX_CALLERS {
        let Some(caller) = callers.pop() else {
            break;
        };
        seats.push(Seat::new(alloc, plan, caller, beam, k)?)?;
    }
    Ok(seats)
}
