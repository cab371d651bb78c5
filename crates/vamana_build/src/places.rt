//! The places of the next batch.
ghost use Rattle.std.specs.Prelude.{◌≡◌, ◌+◌, ◌-◌, ◌%◌, ◌<◌, ◌≤◌, IfSome, length};
ghost use Rattle.vamana_build.specs.Builds.{batch_cap, pass_of, batches_of};
ghost use Rattle.vamana_build.specs.Building.{next_of, given_of};

use crate::plan::Plan;
use prefix_batches::Batches;

/// The places of the batch after the first `k`, of which there is one at least: where a pass has ended and another
/// follows, its batches begin again.
pub(crate) fn next_places(
    plan: &Plan,
    batches: &mut Batches,
    k: u32,
    total: u32,
) -> Option<(u32, u32)>
    requires some { 1 ≤ k }
    requires within { k ≤ total }
    requires total { total ≡ batches_of plan.now.points.now.vectors plan.now.settings }
    requires given { batches.old ≡ record { n = length plan.now.points.now.vectors; cap = batch_cap plan.now.points.now.vectors plan.now.settings; done = (k - 1) % pass_of plan.now.points.now.vectors plan.now.settings + 1 } }
    ensures next { result ≡ next_of plan.now.points.now.vectors plan.now.settings k }
    ensures fits { IfSome result (λ b. (b.0 < b.1) × (b.1 ≤ length plan.now.points.now.vectors)) }
    ensures given { batches.new ≡ record { n = length plan.now.points.now.vectors; cap = batch_cap plan.now.points.now.vectors plan.now.settings; done = given_of plan.now.points.now.vectors plan.now.settings k } }
{
    let next = batches.next();
    if next.is_some() {
        return next;
    }
    if k == total {
        return None;
    }
    *batches = Batches::new(plan.points.count(), plan.cap);
    batches.next()
}
