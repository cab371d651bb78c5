//! What the definitions amount to, as a function whose contract it is. It does nothing when it runs.
ghost use Rattle.neighbour_lists.specs.Settled.{SettledPointsStay};

/// A point keeps its list in a round where the round before left its list and all neighbourhoods that it sees as they were.
pub fn settled_points_stay()
    ensures { SettledPointsStay }
{}
