//! Worked rows of the points 0, 10 and 20.
ghost use Rattle.std.specs.Prelude.{◌≡◌, ◌<◌, ◌≤◌, ◌∷◌, [], length, IfOk};

use ann_defs::Near;
use ann_shelf::NoMemory;
use bin_files::Points;
use robust_prune::{Alpha, prune};
use std::alloc::Global;
use std::test::Fail;

fn three_points(alloc: Global) -> Result<Points, NoMemory>
    ensures { IfOk result (λ p. p.vectors ≡ (0 ∷ []) ∷ (10 ∷ []) ∷ (20 ∷ []) ∷ []) }
{
    let bytes = [0, 10, 20].to_vec(alloc)?;
    Ok(Points::from_bytes(1, bytes))
}

// The row of the first point among the others, the farther one first, at a factor of so many hundredths.
fn prune_both(points: &Points, hundredths: u32, degree: u32, out: &mut [u32; 3]) -> usize
    requires points { points.now.vectors ≡ (0 ∷ []) ∷ (10 ∷ []) ∷ (20 ∷ []) ∷ [] }
    requires hundredths { (100 ≤ hundredths) × (hundredths ≤ 1000) }
    requires degree { degree ≤ 3 }
{
    let alpha = Alpha {
        num: hundredths,
        den: 100,
    };
    let mut cands = [Near { dist: 400, id: 2 }, Near { dist: 100, id: 1 }];
    prune(points, 0, &mut cands, alpha, degree, out)
}

// The row of the first point with no candidates.
fn prune_none(points: &Points, out: &mut [u32; 3]) -> usize
    requires { 0 < length points.now.vectors }
{
    prune(points, 0, &mut [], Alpha { num: 1, den: 1 }, 3, out)
}

// Its row at most `degree` long, and what stands where the row is written.
fn row_at(alloc: Global, hundredths: u32, degree: u32) -> Result<(usize, [u32; 3]), NoMemory>
    requires hundredths { (100 ≤ hundredths) × (hundredths ≤ 1000) }
    requires degree { degree ≤ 3 }
{
    let points = three_points(alloc)?;
    let mut out = [7, 7, 7];
    let len = prune_both(&points, hundredths, degree, &mut out);
    Ok((len, out))
}

#[test]
fn a_tie_removes_the_farther_candidate(rt: HostRuntime) -> Result<(), Fail> {
    assert!(rt; row_at(rt.alloc(), 400, 2)? == (1, [1, 7, 7]));
    Ok(())
}

#[test]
fn a_factor_just_above_the_tie_keeps_both_nearest_first(rt: HostRuntime) -> Result<(), Fail> {
    assert!(rt; row_at(rt.alloc(), 401, 2)? == (2, [1, 2, 7]));
    assert!(rt; row_at(rt.alloc(), 401, 1)? == (1, [1, 7, 7]));
    Ok(())
}

#[test]
fn no_candidates_give_no_row(rt: HostRuntime) -> Result<(), Fail> {
    let points = three_points(rt.alloc())?;
    let mut out = [7, 7, 7];
    assert!(rt; prune_none(&points, &mut out) == 0);
    assert!(rt; out == [7, 7, 7]);
    Ok(())
}
