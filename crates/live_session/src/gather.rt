//! The rows of all callers as answers.
ghost use Rattle.std.specs.Prelude.{◌≡◌, ◌≤◌, length, true};
ghost use Rattle.ann_defs.specs.declared.limits.TheConstants.{MAX_CALLERS};
ghost use Rattle.versions.specs.Course.{course_of, total_of};
ghost use Rattle.live_session.specs.Asked.{AreWhole};
ghost use Rattle.live_session.specs.Lawful.{is_lawful};
ghost use Rattle.live_session.specs.LiveAnswers.{batches_in, last_answers, live_answers};

use crate::answers::LiveAnswers;
use crate::asking::Asking;
use crate::row::AnswerRow;
use ann_defs::MAX_CALLERS;
use vamana_build::Plan;

/// The answers beside the build.
pub(crate) fn live_of(plan: &Plan<'_>, asking: &Asking<'_>, rows: Vec<AnswerRow>) -> LiveAnswers
    requires callers { (1 ≤ asking.now.callers) × (asking.now.callers ≤ MAX_CALLERS) }
    requires count { length rows.items ≡ asking.now.callers }
    requires whole { AreWhole (course_of plan.now) asking.now 1 (total_of (course_of plan.now)) rows.items }
    ensures lawful { is_lawful asking.now.callers (total_of (course_of plan.now)) (length asking.now.queries.now.vectors) (batches_in result) ≡ true }
    ensures live { result ≡ live_answers (course_of plan.now) asking.now.beam asking.now.k asking.now.queries.now.vectors (batches_in result) }
{
    LiveAnswers::of(asking.queries.count(), rows)
}

/// The answers in the last graph.
pub(crate) fn last_of(plan: &Plan<'_>, asking: &Asking<'_>, rows: Vec<AnswerRow>) -> LiveAnswers
    requires callers { (1 ≤ asking.now.callers) × (asking.now.callers ≤ MAX_CALLERS) }
    requires count { length rows.items ≡ asking.now.callers }
    requires whole { AreWhole (course_of plan.now) asking.now (total_of (course_of plan.now)) (total_of (course_of plan.now)) rows.items }
    ensures { result ≡ last_answers (course_of plan.now) asking.now.beam asking.now.k asking.now.queries.now.vectors }
{
    LiveAnswers::of(asking.queries.count(), rows)
}
