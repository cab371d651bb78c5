//! Ids that are offered to a list, each with its distance, where they were not offered before.
ghost use Rattle.std.specs.Prelude.{◌≡◌, ◌<◌, ◌≤◌, length, take};
ghost use Rattle.std.specs.List.{All, fold};
ghost use Rattle.ann_defs.specs.Distance.{dim_of};
ghost use Rattle.ann_defs.specs.Ordered.{put, Rises};
ghost use Rattle.ann_defs.specs.Nearness.{near_cmp, all_near};
ghost use Rattle.near_lists.specs.Marks.{AreSettled, OnlySeen};

use crate::ahead::touch;
use crate::list::offer;
use crate::marks::collect;
use crate::measured::near_to;
use ann_defs::Near;
use bin_files::Points;

/// Offers each of the ids with its squared distance to the query. Returns what `offer` does.
pub fn offer_all(
    points: &Points,
    query: &[u8],
    ids: &[u32],
    list: &mut [Near],
    len: usize,
    limit: usize,
) -> (usize, usize)
    requires query { length query.now ≡ dim_of points.now.vectors }
    requires ids { All (λ u. u < length points.now.vectors) ids.now }
    requires limit { limit ≤ length list.old }
    requires len { len ≤ limit }
    requires rises { Rises near_cmp (take len list.old) }
    ensures list { take result.0 list.new ≡
        take limit (fold (put near_cmp) (take len list.old) (all_near points.now.vectors query.now ids.now)) }
    ensures bound { result.0 ≤ limit }
    ensures grows { len ≤ result.0 }
    ensures front { take result.1 list.new ≡ take result.1 list.old }
    ensures first { result.1 ≤ len }
{
    let mut count = len;
    let mut first = len;
    for id in ids {
        let (kept, at) = offer(list, count, limit, near_to(points, query, *id));
        count = kept;
        first = first.min(at);
    }
    (count, first)
}

/// Offers those of the ids that aren't marked with this stamp or a later one, with their squared distances to the
/// query, and marks them. Returns what `offer` does.
///
/// A marked id was offered before, so offering it again would change nothing. `todo` has room for some ids: as many are
/// collected and read ahead before the first of them is offered.
pub fn offer_unseen(
    points: &Points,
    query: &[u8],
    ids: &[u32],
    list: &mut [Near],
    len: usize,
    limit: usize,
    marks: &mut [u32],
    seen: u32,
    todo: &mut [u32],
) -> (usize, usize)
    requires query { length query.now ≡ dim_of points.now.vectors }
    requires ids { All (λ u. u < length points.now.vectors) ids.now }
    requires limit { limit ≤ length list.old }
    requires len { len ≤ limit }
    requires rises { Rises near_cmp (take len list.old) }
    requires marks { length marks.old ≡ length points.now.vectors }
    requires todo { 1 ≤ length todo.old }
    requires settled { AreSettled points.now.vectors query.now limit seen (take len list.old) marks.old }
    ensures list { take result.0 list.new ≡
        take limit (fold (put near_cmp) (take len list.old) (all_near points.now.vectors query.now ids.now)) }
    ensures bound { result.0 ≤ limit }
    ensures grows { len ≤ result.0 }
    ensures front { take result.1 list.new ≡ take result.1 list.old }
    ensures first { result.1 ≤ len }
    ensures settled { AreSettled points.now.vectors query.now limit seen (take result.0 list.new) marks.new }
    ensures marks { OnlySeen seen marks.old marks.new }
{
    let mut count = len;
    let mut first = len;
    let mut at = 0;
    while at < ids.len() {
        let end = at + todo.len().min(ids.len() - at);
        let new = collect(&ids[at..end], marks, seen, todo);
        touch(points, todo, new);
        let (kept, place) = offer_all(points, query, &todo[..new], list, count, limit);
        count = kept;
        first = first.min(place);
        at = end;
    }
    (count, first)
}
