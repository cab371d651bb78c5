//! The factor of a prune.
ghost use Rattle.std.specs.Prelude.{◌≤◌};

/// The factor of RobustPrune as a fraction `num / den`, at least 1 and at most 1,000.
///
/// A kept candidate `c` removes `x` where `num * dist(c, x) <= den * dist(p, x)`. These distances are squared, so the
/// fraction is the square of the factor in DiskANN, Algorithm 2. The bounds are kept by the type. Two are equal exactly where
/// both numbers are.
#[derive(Clone, Copy, Debug, PartialEq, Eq)]
pub struct Alpha {
    pub num: u32,
    pub den: u32,
    ghost some: { 1 ≤ den },
    ghost ordered: { den ≤ num },
    ghost small: { num ≤ 1000 },
}
