//! A caller with its rows.
ghost use Rattle.std.specs.Prelude.{◌≡◌, ◌+◌, ◌*◌, ◌<◌, ◌≤◌, length, IsTrue, MatchOption, IfSome, IfNone};
ghost use Rattle.ann_defs.specs.declared.limits.TheConstants.{MAX_CALLERS};
ghost use Rattle.ann_defs.specs.Distance.{point};
ghost use Rattle.versions.specs.Course.{answer_at, total_of};
ghost use Rattle.live_session.specs.Asked.{Fits};
ghost use Rattle.live_session.specs.Askers.{IsSeat, Stands};

use crate::asking::Asking;
use crate::row::AnswerRow;
use ann_defs::MAX_CALLERS;
use ann_shelf::Gate;
use beam_search::Scratch;
use versions::{Answer, Caller};

/// What a caller needs to ask, and its number: it asks the queries `first`, `first + callers` and so on.
#[derive(Drop)]
pub(crate) struct Seat {
    pub first: u32,
    pub scratch: Scratch,
    pub out: Answer,
}

/// A caller, and its answers beside the build and after it.
#[derive(Drop)]
pub(crate) struct Asker<'p> {
    pub caller: Caller<'p>,
    pub seat: Seat,
    pub live: AnswerRow,
    pub last: AnswerRow,
}

/// The query at this place among those of a caller, if there is one.
pub(crate) fn query_at(asking: &Asking<'_>, first: u32, place: u32) -> Option<u32>
    requires first { first < asking.now.callers }
    requires callers { asking.now.callers ≤ MAX_CALLERS }
    ensures { MatchOption result (length asking.now.queries.now.vectors ≤ first + place * asking.now.callers) (λ j. (j ≡ first + place * asking.now.callers) × (j < length asking.now.queries.now.vectors)) }
{
    let query = u64::from(first) + u64::from(place) * u64::from(asking.callers);
    if query < u64::from(asking.queries.count()) {
        return Some(query as u32);
    }
    None
}

/// Asks a query; the answer is in the seat. None where the entry was refused.
pub(crate) fn ask(
    caller: &mut Caller<'_>,
    seat: &mut Seat,
    asking: &Asking<'_>,
    query: u32,
) -> Option<u32>
    requires fits { Fits caller.old.course asking.now }
    requires seat { IsSeat caller.old.course asking.now seat.old }
    requires query { query < length asking.now.queries.now.vectors }
    ensures course { caller.new.course ≡ caller.old.course }
    ensures none { IfNone result (caller.new.seen ≡ caller.old.seen) }
    ensures seen { IfSome result (λ v. caller.new.seen ≡ v) }
    ensures late { IfSome result (λ v. caller.old.seen ≤ v) }
    ensures within { IfSome result (λ v. v ≤ total_of caller.old.course) }
    ensures answer { IfSome result (λ v. seat.new.out.pairs ≡ answer_at caller.old.course v asking.now.beam asking.now.k (point asking.now.queries.now.vectors query)) }
    ensures short { IfSome result (λ _. length seat.new.out.pairs ≤ asking.now.k) }
    ensures seat { IsSeat caller.old.course asking.now seat.new }
    ensures first { seat.new.first ≡ seat.old.first }
{
    caller.query(
        asking.queries.at(query),
        asking.k,
        asking.beam,
        &mut seat.scratch,
        &mut seat.out,
    )
}

impl<'p> Asker<'p> {
    // Asks a query that stands next in the row, and keeps its answer. False where the entry was refused.
    fn ask_next(&mut self, asking: &Asking<'_>, query: u32) -> bool
        requires fits { Fits self.old.caller.course asking.now }
        requires stands { Stands self.old.caller.course asking.now self.old }
        requires room { length self.old.live.answers < self.old.live.size }
        requires next { query ≡ self.old.seat.first + length self.old.live.answers * asking.now.callers }
        requires query { query < length asking.now.queries.now.vectors }
        ensures stands { Stands self.old.caller.course asking.now self.new }
        ensures grown { IsTrue result → length self.new.live.answers ≡ length self.old.live.answers + 1 }
        ensures size { self.new.live.size ≡ self.old.live.size }
        ensures first { self.new.seat.first ≡ self.old.seat.first }
        ensures course { self.new.caller.course ≡ self.old.caller.course }
    {
        let Some(batch) = ask(&mut self.caller, &mut self.seat, asking, query) else {
            return false;
        };
        self.live.push(batch, self.seat.out.pairs());
        true
    }

    /// Asks the caller's queries in their order, until an entry is refused. `gate.answer` is called after each answer.
    pub fn ask_all<G: Gate>(&mut self, asking: &Asking<'_>, gate: &G)
        requires fits { Fits self.old.caller.course asking.now }
        requires stands { Stands self.old.caller.course asking.now self.old }
        ensures stands { Stands self.old.caller.course asking.now self.new }
        ensures first { self.new.seat.first ≡ self.old.seat.first }
    {
        for place in self.live.len()..self.live.size() {
            let Some(query) = query_at(asking, self.seat.first, place) else {
                return;
            };
            if !self.ask_next(asking, query) {
                return;
            }
            gate.answer(query);
        }
    }
}
