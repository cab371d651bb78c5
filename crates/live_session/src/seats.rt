//! What callers need, taken before the first batch.
ghost use Rattle.std.specs.Prelude.{◌≡◌, ◌*◌, ◌<◌, ◌≤◌, [], length, replicate, IfOk};
ghost use Rattle.std.specs.List.{All};
ghost use Rattle.ann_defs.specs.declared.limits.TheConstants.{MAX_ANSWERS};
ghost use Rattle.versions.specs.Course.{course_of, total_of};
ghost use Rattle.versions.specs.Standing.{starting};
ghost use Rattle.live_session.specs.Asked.{Fits};
ghost use Rattle.live_session.specs.Askers.{IsPlace, ArePlaces, AreNumbered, Stands};

use crate::asker::{Asker, Seat};
use crate::asking::Asking;
use crate::row::AnswerRow;
use ann_shelf::NoMemory;
use beam_search::Scratch;
use std::alloc::Global;
use vamana_build::Plan;
use versions::{Answer, Caller};

/// A seat, and room for a caller's answers beside the build and after it.
#[derive(Drop)]
pub(crate) struct Place {
    pub seat: Seat,
    pub live: AnswerRow,
    pub last: AnswerRow,
}

// The place of one caller.
fn place_for(
    alloc: Global,
    plan: &Plan<'_>,
    asking: &Asking<'_>,
    first: u32,
) -> Result<Place, NoMemory>
    requires fits { Fits (course_of plan.now) asking.now }
    requires answers { length asking.now.queries.now.vectors * asking.now.k ≤ MAX_ANSWERS }
    requires first { first < asking.now.callers }
    ensures place { IfOk result (IsPlace (course_of plan.now) asking.now) }
    ensures first { IfOk result (λ p. p.seat.first ≡ first) }
{
    let size = asking.queries.count().div_ceil(asking.callers);
    let scratch = Scratch::new(alloc, plan.points.count(), asking.beam)?;
    let out = Answer::with_room(alloc, asking.k)?;
    let live = AnswerRow::new(alloc, size, asking.k)?;
    let last = AnswerRow::new(alloc, size, asking.k)?;
    Ok(Place {
        seat: Seat {
            first,
            scratch,
            out,
        },
        live,
        last,
    })
}

/// A place for each caller, in their order.
pub(crate) fn places_for(
    alloc: Global,
    plan: &Plan<'_>,
    asking: &Asking<'_>,
) -> Result<Vec<Place>, NoMemory>
    requires fits { Fits (course_of plan.now) asking.now }
    requires answers { length asking.now.queries.now.vectors * asking.now.k ≤ MAX_ANSWERS }
    ensures count { IfOk result (λ v. length v.items ≡ asking.now.callers) }
    ensures places { IfOk result (λ v. All (IsPlace (course_of plan.now) asking.now) v.items) }
    ensures order { IfOk result (λ v. ArePlaces v.items) }
{
    let mut places = Vec::with_capacity(alloc, asking.callers as usize)?;
    for first in 0..asking.callers {
        places.push(place_for(alloc, plan, asking, first)?)?;
    }
    Ok(places)
}

/// Gives each caller a place, into a list that is empty. The last place is first in the list.
pub(crate) fn seated<'p>(
    plan: &Plan<'_>,
    asking: &Asking<'_>,
    mut callers: Vec<Caller<'p>>,
    mut places: Vec<Place>,
    mut askers: Vec<Asker<'p>>,
) -> Result<Vec<Asker<'p>>, NoMemory>
    requires callers { callers.items ≡ replicate asking.now.callers (starting (course_of plan.now)) }
    requires count { length places.items ≡ asking.now.callers }
    requires places { All (IsPlace (course_of plan.now) asking.now) places.items }
    requires order { ArePlaces places.items }
    requires empty { askers.items ≡ [] }
    requires total { 1 ≤ total_of (course_of plan.now) }
    ensures count { IfOk result (λ v. length v.items ≡ asking.now.callers) }
    ensures stand { IfOk result (λ v. All (Stands (course_of plan.now) asking.now) v.items) }
    ensures order { IfOk result (λ v. AreNumbered asking.now.callers v.items) }
{
    for _ in 0..asking.callers {
        let Some(Place { seat, live, last }) = places.pop() else {
            unreachable!()
        };
        let Some(caller) = callers.pop() else {
            unreachable!()
        };
        askers.push(Asker {
            caller,
            seat,
            live,
            last,
        })?;
    }
    Ok(askers)
}
