//! How many entries differ between two states of lists.
ghost use Rattle.std.specs.Prelude.{◌≡◌, ◌≤◌, length, not};
ghost use Rattle.std.specs.List.{filter, range_with_len, sum_by};
ghost use Rattle.ann_defs.specs.Graph.{has};
ghost use Rattle.neighbour_lists.specs.Changes.{entered_between};

use graph_rows::FlatGraph;

// How many ids of the new row the old one lacks.
fn entered_in(old: &[u32], new: &[u32]) -> usize
    ensures value { result ≡ length (filter (λ u. not (has old.now u)) new.now) }
    ensures bound { result ≤ length new.now }
{
    let mut count = 0;
    for id in new {
        if !old.contains(id) {
            count += 1;
        }
    }
    count
}

/// How many entries of the new lists the old ones lack. Takes no memory.
pub(crate) fn count_changes(old: &FlatGraph, new: &FlatGraph) -> u64
    requires { length old.now.rows ≡ length new.now.rows }
    ensures { result ≡ sum_by (entered_between old.now.rows new.now.rows) (range_with_len 0 (length new.now.rows)) }
{
    let mut changes = 0u64;
    for v in 0..new.count() {
        changes += entered_in(old.at(v), new.at(v)) as u64;
    }
    changes
}
