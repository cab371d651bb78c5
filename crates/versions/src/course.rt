//! Whether two plans have the same graphs.
ghost use Rattle.std.specs.Prelude.{◌≡◌, IsTrue};
ghost use Rattle.versions.specs.Course.{course_of};

use vamana_build::{Alpha, Plan, VamanaSettings};

/// Whether points and settings are the same. It goes through the points.
pub(crate) fn is_same_course(a: &Plan, b: &Plan) -> bool
    ensures { IsTrue result → course_of a.now ≡ course_of b.now }
{
    are_same_settings(a.settings, b.settings) && a.points.is_same(b.points)
}

fn are_same_settings(a: VamanaSettings, b: VamanaSettings) -> bool
    ensures { IsTrue result → a ≡ b }
{
    if a.order != b.order {
        return false;
    }
    if a.start != b.start {
        return false;
    }
    if !is_same_factor(a.alpha, b.alpha) {
        return false;
    }
    if a.cap != b.cap {
        return false;
    }
    if a.seed != b.seed {
        return false;
    }
    if a.degree != b.degree {
        return false;
    }
    if a.passes != b.passes {
        return false;
    }
    a.beam == b.beam
}

#[tactic(auto, using(crate::proofs::Settings::alpha_same))]
fn is_same_factor(a: Alpha, b: Alpha) -> bool
    ensures { IsTrue result → a ≡ b }
{
    if a.num != b.num {
        return false;
    }
    a.den == b.den
}
