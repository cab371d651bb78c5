//! What the rule of the table amounts to, on a function whose contract it is. It does nothing when it runs.
ghost use Rattle.steal_table.specs.Laws.{RoundsGoByEvents};

/// A table shows one state of its round: each task open, held by a number, or done by it with the block that is wanted.
/// Claims and finishes are the only events of this state, whatever steps are made and in whatever order.
pub fn rounds_go_by_events()
    ensures { RoundsGoByEvents }
{}
