//! The line of four points whose build is worked out by hand.
ghost use Rattle.std.specs.Prelude.{◌≡◌, IfOk, Some, length};
ghost use Rattle.ann_defs.specs.Distance.{dim_of};

use ann_defs::Near;
use ann_shelf::NoMemory;
use bin_files::Points;
use std::alloc::Global;
use vamana_build::{Alpha, OrderKind, StartKind, VamanaSettings};

// The points 0, 10, 20 and 30.
pub(crate) fn line(alloc: Global) -> Result<Points, NoMemory>
    ensures count { IfOk result (λ p. length p.vectors ≡ 4) }
    ensures dim { IfOk result (λ p. dim_of p.vectors ≡ 1) }
{
    Ok(Points::from_bytes(1, vec![in alloc; 0u8, 10, 20, 30]?))
}

// In file order from the first point, with factor 1.
pub(crate) fn plain(degree: u32, beam: u32, cap: u32, passes: u32) -> VamanaSettings
    ensures { (result.degree ≡ degree) × (result.beam ≡ beam) × (result.cap ≡ Some cap) × (result.passes ≡ passes) }
{
    VamanaSettings {
        order: OrderKind::File,
        start: StartKind::First,
        seed: 0,
        degree,
        beam,
        alpha: Alpha { num: 1, den: 1 },
        cap: Some(cap),
        passes,
    }
}

// An id with its squared distance.
pub(crate) fn near(dist: u32, id: u32) -> Near {
    Near { dist, id }
}
