//! The factor of a batch.
ghost use Rattle.std.specs.Prelude.{◌≡◌};
ghost use Rattle.vamana_build.specs.Builds.{pass_of, build_at};

use crate::plan::Plan;
use ann_defs::Alpha;

/// The factor of the batch after the first `k`, where a pass has so many: 1 in a pass that another follows, else that of
/// the settings.
pub(crate) fn alpha_after(plan: &Plan, pass: u32, k: u32) -> Alpha
    requires pass { pass ≡ pass_of plan.now.points.now.vectors plan.now.settings }
    ensures num { result.num ≡ (build_at plan.now.points.now.vectors plan.now.settings k).num }
    ensures den { result.den ≡ (build_at plan.now.points.now.vectors plan.now.settings k).den }
{
    if plan.settings.passes == 2 && k < pass {
        return Alpha { num: 1, den: 1 };
    }
    plan.settings.alpha
}
