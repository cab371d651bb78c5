//! What a caller of the line of four points is answered, worked out by hand.
ghost use Rattle.std.specs.Prelude.{◌≡◌};
ghost use Rattle.ann_defs.specs.Distance.{dim_of};
ghost use Rattle.versions.specs.Course.{course_of};
ghost use Rattle.live_tests.specs.Seated.{CanAsk};

use crate::line::near;
use crate::seat::Seat;
use ann_defs::Near;
use vamana_build::Plan;
use versions::BatchNote;

// A query of beam 4 for one id.
fn ask(plan: &Plan<'_>, seat: &mut Seat<'_>, query: u8) -> Option<u32>
    requires dim { dim_of plan.now.points.now.vectors ≡ 1 }
    requires can { CanAsk (course_of plan.now) 4 1 seat.old }
    ensures { CanAsk (course_of plan.now) 4 1 seat.new }
{
    seat.ask(plan, &[query], 4, 1)
}

// Whether a query is answered so in this batch.
pub(crate) fn is_answered(
    plan: &Plan<'_>,
    seat: &mut Seat<'_>,
    query: u8,
    batch: u32,
    wanted: Near,
) -> bool
    requires dim { dim_of plan.now.points.now.vectors ≡ 1 }
    requires can { CanAsk (course_of plan.now) 4 1 seat.old }
    ensures { CanAsk (course_of plan.now) 4 1 seat.new }
{
    ask(plan, seat, query) == Some(batch) && seat.pairs() == [wanted].as_slice()
}

// Whether a query is refused, for the time with this number.
fn is_refused(plan: &Plan<'_>, seat: &mut Seat<'_>, times: u64) -> bool
    requires dim { dim_of plan.now.points.now.vectors ≡ 1 }
    requires can { CanAsk (course_of plan.now) 4 1 seat.old }
    ensures { CanAsk (course_of plan.now) 4 1 seat.new }
{
    ask(plan, seat, 12).is_none() && seat.pairs().is_empty() && seat.refused() == times
}

// Whether a caller is answered in the last of two batches of which it is told, and not told back by the first.
pub(crate) fn is_told<'p>(
    plan: &Plan<'_>,
    seat: &mut Seat<'p>,
    second: BatchNote<'p>,
    third: BatchNote<'p>,
) -> bool
    requires dim { dim_of plan.now.points.now.vectors ≡ 1 }
    requires can { CanAsk (course_of plan.now) 4 1 seat.old }
    requires second { second.course ≡ course_of plan.now }
    requires third { third.course ≡ course_of plan.now }
    ensures { CanAsk (course_of plan.now) 4 1 seat.new }
{
    let numbers = (second.batch(), third.batch());
    seat.told(plan, third, 4, 1);
    let answered = is_answered(plan, seat, 30, 3, near(100, 2));
    let counts = (seat.seen(), seat.refused());
    seat.told(plan, second, 4, 1);
    numbers == (2, 3) && answered && counts == (3, 0) && seat.seen() == 3
}

// Whether a query of 12 is answered as the graph of its batch has it, in no batch before an earlier answer. In the first
// graph no row leads anywhere; in the others the row of 0 leads to 1.
pub(crate) fn never_goes_back(plan: &Plan<'_>, seat: &mut Seat<'_>, published: u32) -> bool
    requires dim { dim_of plan.now.points.now.vectors ≡ 1 }
    requires can { CanAsk (course_of plan.now) 4 1 seat.old }
    ensures { CanAsk (course_of plan.now) 4 1 seat.new }
{
    let Some(batch) = ask(plan, seat, 12) else {
        return false;
    };
    let wanted = if batch == 1 { near(144, 0) } else { near(4, 1) };
    let found = seat.pairs() == [wanted].as_slice();
    1 <= batch && batch <= published && !seat.fell() && found
}

// Whether queries after the end are refused one by one, and the caller has seen as many batches as before.
pub(crate) fn is_refused_then(plan: &Plan<'_>, seat: &mut Seat<'_>) -> bool
    requires dim { dim_of plan.now.points.now.vectors ≡ 1 }
    requires can { CanAsk (course_of plan.now) 4 1 seat.old }
{
    let seen = seat.seen();
    is_refused(plan, seat, 1) && is_refused(plan, seat, 2) && seat.seen() == seen
}
