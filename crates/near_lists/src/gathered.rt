//! Ids that are gathered, each once.
ghost use Rattle.std.specs.Prelude.{◌≡◌, ◌+◌, ◌-◌, ◌<◌, ◌≤◌, ◌++◌, length, take};
ghost use Rattle.std.specs.List.{All};
ghost use Rattle.ann_defs.specs.Distance.{point};
ghost use Rattle.ann_defs.specs.Nearness.{all_near};
ghost use Rattle.near_lists.specs.Gathered.{gathered};
ghost use Rattle.near_lists.specs.Marks.{AreUpTo};

use crate::measured::near_to;
use ann_defs::Near;
use bin_files::Points;

/// Gathers the measured and the extra ids without `p`, each once, with their squared distances to point `p`, at the front
/// of the room. Returns how many they are.
///
/// What is gathered is marked with the stamp, and so is `p` from the start. The measured ids come with their distances to
/// point `p`, which are not taken again.
pub fn gather(
    points: &Points,
    p: u32,
    measured: &[Near],
    extra: &[u32],
    room: &mut [Near],
    marks: &mut [u32],
    stamp: u32,
) -> usize
    requires p { p < length points.now.vectors }
    requires in_range { All (λ x. x.id < length points.now.vectors) measured.now }
    requires extra { All (λ u. u < length points.now.vectors) extra.now }
    requires room { length measured.now + length extra.now ≤ length room.old }
    requires marks { length marks.old ≡ length points.now.vectors }
    requires some { 1 ≤ stamp }
    requires later { AreUpTo (stamp - 1) marks.old }
    ensures list { take result room.new ≡ gathered p (measured.now ++ all_near points.now.vectors (point points.now.vectors p) extra.now) }
    ensures bound { result ≤ length room.old }
    ensures marks { AreUpTo stamp marks.new }
{
    marks[p as usize] = stamp;
    let mut len = 0;
    for x in measured {
        if marks[x.id as usize] == stamp {
            continue;
        }
        marks[x.id as usize] = stamp;
        room[len] = *x;
        len += 1;
    }
    for id in extra {
        if marks[*id as usize] == stamp {
            continue;
        }
        marks[*id as usize] = stamp;
        room[len] = near_to(points, points.at(p), *id);
        len += 1;
    }
    len
}
