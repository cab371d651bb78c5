//! Marks of ids, each the stamp of the search that saw the id last.
ghost use Rattle.std.specs.Prelude.{◌≡◌, ◌+◌, ◌-◌, ◌^◌, ◌<◌, ◌≤◌, length, take};
ghost use Rattle.std.specs.List.{All};
ghost use Rattle.near_lists.specs.Marks.{AreUpTo, AreUnseen};

/// The first of two stamps that are later than every mark, where `last` was the latest so far.
///
/// No mark is touched, unless the stamps are used up: then all are cleared.
pub fn next_stamp(marks: &mut [u32], last: u32) -> u32
    requires { AreUpTo last marks.old }
    ensures later { AreUpTo (result - 1) marks.new }
    ensures some { 1 ≤ result }
    ensures room { result + 1 < 2 ^ 32 }
    ensures kept { last + 2 < 2 ^ 32 → marks.new ≡ marks.old }
    ensures len { length marks.new ≡ length marks.old }
{
    if last < u32::MAX - 1 {
        return last + 1;
    }
    marks.fill(0);
    1
}

/// Collects those ids that aren't marked with this stamp or a later one, and marks them. Returns how many they are.
///
/// Each id is written to the front of `todo`, and counted only if it is new: the work doesn't branch.
pub fn collect(ids: &[u32], marks: &mut [u32], seen: u32, todo: &mut [u32]) -> usize
    requires ids { All (λ u. u < length marks.old) ids.now }
    requires room { length ids.now ≤ length todo.old }
    ensures unseen { AreUnseen seen ids.now marks.old (take result todo.new) marks.new }
    ensures bound { result ≤ length ids.now }
{
    let mut count = 0;
    for id in ids {
        let mark = marks[*id as usize];
        todo[count] = *id;
        count += (mark < seen) as usize;
        marks[*id as usize] = mark.max(seen);
    }
    count
}
