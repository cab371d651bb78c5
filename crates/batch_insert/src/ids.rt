//! Ids in ascending order.
ghost use Rattle.std.specs.Prelude.{◌≡◌, ◌≤◌, length};
ghost use Rattle.std.specs.Ordering.{nat_cmp};
ghost use Rattle.ann_defs.specs.Ordered.{Ascends, ordered};

/// Puts ids in ascending order, each once. Takes no memory.
pub fn sort_ids(ids: &mut Vec<u32>)
    ensures items { ids.new.items ≡ ordered nat_cmp ids.old.items }
    ensures ascend { Ascends ids.new.items }
    ensures few { length ids.new.items ≤ length ids.old.items }
{
    ids.sort_unstable();
    ids.dedup();
}
