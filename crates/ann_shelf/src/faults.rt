//! Counts of faults and of want of memory.
ghost use Rattle.std.specs.Prelude.{◌≡◌, ◌≤◌};
ghost use Rattle.ann_shelf.specs.Faults.{Rose, next_count};

use crate::Slip;

/// Counts a refusal and passes it on. The count stays at the last value of u64.
pub fn counted(slip: Slip, count: &mut u64) -> Slip
    ensures slip { result ≡ slip }
    ensures counted { count.new ≡ next_count count.old }
    ensures rose { Rose count.old count.new }
    ensures grew { count.old ≤ count.new }
{
    *count = count.saturating_add(1);
    slip
}
