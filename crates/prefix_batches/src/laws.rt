//! What the bounds amount to, each law on a function whose contract it is. None of them does anything when it runs.
ghost use Rattle.prefix_batches.specs.Laws.{BoundsRise, BoundsEndAtTotal, TotalIsWithin};

/// No bound passes the number of points, and below it each bound is greater than the one before.
pub fn bounds_rise()
    ensures { BoundsRise }
{}

/// The bounds have come to the number of points exactly from the total of batches on.
pub fn bounds_end_at_total()
    ensures { BoundsEndAtTotal }
{}

/// There is at least one batch, and at most one for each point.
pub fn total_is_within()
    ensures { TotalIsWithin }
{}
