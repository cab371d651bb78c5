//! What the definitions amount to, each law on a function whose contract it is. None of them does anything when it runs.
ghost use Rattle.ann_defs.specs.Laws.{SearchEnds, LeastSeesMembers, SearchSeesMembers, PruneSeesMembers, PruneTakesLeast, GraphsStayGood};

/// A search ends with every found id visited: GreedySearch's loop condition is false at its end.
pub fn search_ends()
    ensures { SearchEnds }
{}

/// The nearest of a set don't depend on the order of the set's ids, nor on how often one is given.
pub fn least_sees_members()
    ensures { LeastSeesMembers }
{}

/// A search sees its starts and each row as sets.
pub fn search_sees_members()
    ensures { SearchSeesMembers }
{}

/// A prune sees its candidates as a set.
pub fn prune_sees_members()
    ensures { PruneSeesMembers }
{}

/// A pruned row is what taking the least candidate and filtering the others, again and again, gives.
pub fn prune_takes_least()
    ensures { PruneTakesLeast }
{}

/// Batch after batch, each row holds at most `degree` distinct other points.
pub fn graphs_stay_good()
    ensures { GraphsStayGood }
{}
