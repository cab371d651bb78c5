//! Lists in order of nearness, at the front of a slice.
ghost use Rattle.std.specs.Prelude.{◌≡◌, ◌≢◌, true, false, ◌+◌, ◌-◌, ◌<◌, ◌≤◌, ◌∷◌, ◌++◌, ◌==◌, ◌&&◌, ◌||◌, length, take, drop, slice_index_or};
ghost use Rattle.std.specs.List.{AllWithin, HoldsAt};
ghost use Rattle.std.specs.declared.cmp.Ordering.TheVariants.{Less};
ghost use Rattle.std.specs.Ordering.{is_lt};
ghost use Rattle.ann_defs.specs.Ordered.{put, Rises};
ghost use Rattle.ann_defs.specs.Nearness.{near_cmp};

use ann_defs::Near;

/// Whether a comes before b.
fn is_before(a: Near, b: Near) -> bool
    ensures { result ≡ is_lt (near_cmp a b) }
{
    (a.dist < b.dist) | ((a.dist == b.dist) & (a.id < b.id))
}

/// Puts x into its place among the first `len`, once, and keeps the nearest `limit`. Returns how many are kept, and the
/// place from which on entries may differ.
///
/// Where the list is full, x is compared with the last first, and mostly turned away by that. Else its place is looked
/// up by halves, and what stands behind moves up by one. An entry that is there already stays.
pub fn offer(list: &mut [Near], len: usize, limit: usize, x: Near) -> (usize, usize)
    requires limit { limit ≤ length list.old }
    requires len { len ≤ limit }
    requires rises { Rises near_cmp (take len list.old) }
    ensures list { take result.0 list.new ≡ take limit (put near_cmp (take len list.old) x) }
    ensures bound { result.0 ≤ limit }
    ensures grows { len ≤ result.0 }
    ensures front { take result.1 list.new ≡ take result.1 list.old }
    ensures first { result.1 ≤ len }
{
    if is_full(list, len, limit, x) {
        return (len, len);
    }
    let at = place_of(&list[..len], x);
    if stands_at(&list[..len], at, x) {
        return (len, len);
    }
    (insert(list, len, limit, at, x), at)
}

// How many entries come before x. The place is looked up by halves, and no branch depends on what an entry is: which half
// is taken can't be foreseen.
fn place_of(list: &[Near], x: Near) -> usize
    requires rises { Rises near_cmp list.now }
    ensures bound { result ≤ length list.now }
    ensures before { AllWithin (λ y. near_cmp y x ≡ Less) list.now 0 result }
    ensures behind { result < length list.now → HoldsAt (λ y. near_cmp y x ≢ Less) list.now result }
{
    if list.len() == 0 {
        return 0;
    }
    let mut low = 0;
    let mut left = list.len();
    while left > 1 {
        let half = left / 2;
        low += half * (is_before(list[low + half - 1], x) as usize);
        left -= half;
    }
    low + is_before(list[low], x) as usize
}

// Whether x is the entry at this place.
fn stands_at(list: &[Near], at: usize, x: Near) -> bool
    ensures there { result ≡ true → (at < length list.now) × HoldsAt (λ y. y ≡ x) list.now at }
    ensures not_there { result ≡ false → at < length list.now → HoldsAt (λ y. y ≢ x) list.now at }
{
    at < list.len() && list[at] == x
}

// Whether the list is full of entries that come before x.
fn is_full(list: &[Near], len: usize, limit: usize, x: Near) -> bool
    requires limit { limit ≤ length list.now }
    requires len { len ≤ limit }
    ensures { result ≡ (len == limit && (len == 0 || is_lt (near_cmp (slice_index_or list.now (len - 1) x) x))) }
{
    len == limit && (len == 0 || is_before(list[len - 1], x))
}

// Inserts x at a place among the first `len`, and keeps the first `limit`. Returns how many are kept.
fn insert(list: &mut [Near], len: usize, limit: usize, at: usize, x: Near) -> usize
    requires limit { limit ≤ length list.old }
    requires len { len ≤ limit }
    requires at { (at ≤ len) × (at < limit) }
    ensures list { take result list.new ≡ take limit (take at list.old ++ x ∷ drop at (take len list.old)) }
    ensures bound { result ≤ limit }
    ensures grows { len ≤ result }
    ensures front { take at list.new ≡ take at list.old }
{
    let kept = limit.min(len + 1);
    list.copy_within(at..kept - 1, at + 1);
    list[at] = x;
    kept
}
