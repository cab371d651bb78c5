//! RobustPrune where some of the candidates are apart already.
ghost use Rattle.std.specs.Prelude.{◌≡◌, ◌+◌, ◌<◌, ◌≤◌, ◌++◌, true, false, length, take, drop, slice_index_or};
ghost use Rattle.std.specs.List.{All, list_all};
ghost use Rattle.std.specs.Ordering.{is_lt};
ghost use Rattle.ann_defs.specs.declared.near.Near.{Near};
ghost use Rattle.ann_defs.specs.Graph.{IsGoodRow};
ghost use Rattle.ann_defs.specs.Nearness.{near_cmp, ids_of};
ghost use Rattle.ann_defs.specs.Ordered.{Has, Rises, ordered};
ghost use Rattle.ann_defs.specs.RobustPrune.{stays, kept, pruned_row};
ghost use Rattle.robust_prune.specs.Apart.{are_apart, IsSpread};
ghost use Rattle.robust_prune.specs.Candidates.{AreCandidates};
ghost use Rattle.robust_prune.specs.Pruned.{IsPruned};

use crate::robust::{is_beyond, most_covered};
use ann_defs::{Alpha, Near};
use bin_files::Points;

/// The row of point `p` as `prune` gives it, where the first `settled` candidates are what an earlier prune for `p` left
/// together: they rise by their nearness to `p`, and each leaves the later ones beside it.
///
/// The others may come in any order. Two settled candidates are not tested again, so the cost is at most `degree`
/// distances for each other candidate, and for each settled one as many as others are kept before it. What `cands` holds
/// afterwards is not said. It can't fail and takes no memory. Behind the row `out` stays as it was.
pub fn prune_among(
    points: &Points,
    p: u32,
    cands: &mut [Near],
    settled: usize,
    alpha: Alpha,
    degree: u32,
    out: &mut [u32],
) -> usize
    requires p { p < length points.now.vectors }
    requires cands { AreCandidates points.now.vectors p cands.old }
    requires settled { settled ≤ length cands.old }
    requires apart { are_apart points.now.vectors alpha.num alpha.den p (ids_of (take settled cands.old)) ≡ true }
    requires room { degree ≤ length out.old }
    ensures row { take result out.new ≡ pruned_row points.now.vectors p (ids_of cands.old) alpha.num alpha.den degree }
    ensures rest { drop result out.new ≡ drop result out.old }
    ensures bound { result ≤ degree }
    ensures good { IsGoodRow (length points.now.vectors) degree p (take result out.new) }
{
    let (first, others) = cands.split_at_mut(settled);
    others.sort_unstable();
    keep_among(points, first, others, alpha, degree, out)
}

// Keeps, of two lists in order, those that stay beside all that are kept before. Those of the first list stay beside
// each other. The kept ones of the second list are collected at its front.
fn keep_among(
    points: &Points,
    settled: &[Near],
    others: &mut [Near],
    alpha: Alpha,
    degree: u32,
    out: &mut [u32],
) -> usize
    requires settled_ids { All (λ x. x.id < length points.now.vectors) settled.now }
    requires other_ids { All (λ x. x.id < length points.now.vectors) others.old }
    requires settled_rise { Rises near_cmp settled.now }
    requires others_rise { Rises near_cmp others.old }
    requires distinct { (z : Near) → Has settled.now z → Has others.old z → ⊥ }
    requires spread { IsSpread (stays points.now.vectors alpha.num alpha.den) settled.now }
    requires room { degree ≤ length out.old }
    ensures kept { take result out.new ≡ ids_of (kept (stays points.now.vectors alpha.num alpha.den) degree (ordered near_cmp (settled.now ++ others.old))) }
    ensures rest { drop result out.new ≡ drop result out.old }
    ensures bound { result ≤ degree }
{
    let total = settled.len() + others.len();
    let mut len = 0;
    let mut fresh = 0;
    let mut i = 0;
    let mut j = 0;
    while i + j < total && len < degree as usize {
        if is_settled_next(settled, others, i, j) {
            let candidate = settled[i];
            i += 1;
            if stays_beside_those(points, alpha, &others[..fresh], candidate) {
                out[len] = candidate.id;
                len += 1;
            }
        } else {
            let candidate = others[j];
            j += 1;
            if stays_beside_all(points, alpha, &out[..len], candidate) {
                others[fresh] = candidate;
                fresh += 1;
                out[len] = candidate.id;
                len += 1;
            }
        }
    }
    len
}

// Whether the nearest of what is left of both lists is of the first.
fn is_settled_next(settled: &[Near], others: &[Near], i: usize, j: usize) -> bool
    requires settled { i ≤ length settled.now }
    requires others { j ≤ length others.now }
    requires left { i + j < length settled.now + length others.now }
    ensures settled { result ≡ true → i < length settled.now }
    ensures before { (d : Near) → result ≡ true → j < length others.now → is_lt (near_cmp (slice_index_or settled.now i d) (slice_index_or others.now j d)) ≡ true }
    ensures other { result ≡ false → j < length others.now }
    ensures behind { (d : Near) → result ≡ false → i < length settled.now → is_lt (near_cmp (slice_index_or settled.now i d) (slice_index_or others.now j d)) ≡ false }
{
    if j == others.len() {
        return true;
    }
    if i == settled.len() {
        return false;
    }
    is_before(settled[i], others[j])
}

// Whether a comes before b.
fn is_before(a: Near, b: Near) -> bool
    ensures { result ≡ is_lt (near_cmp a b) }
{
    a.dist < b.dist || (a.dist == b.dist && a.id < b.id)
}

// Whether the candidate stays beside each id of the row.
fn stays_beside_all(points: &Points, alpha: Alpha, row: &[u32], candidate: Near) -> bool
    requires row { All (λ c. c < length points.now.vectors) row.now }
    requires candidate { candidate.id < length points.now.vectors }
    ensures { result ≡ list_all (λ c. stays points.now.vectors alpha.num alpha.den c candidate) row.now }
{
    let most = most_covered(alpha, candidate.dist);
    for neighbour in row {
        if !is_beyond(points, *neighbour, candidate.id, most) {
            return false;
        }
    }
    true
}

// Whether the candidate stays beside each of these.
fn stays_beside_those(points: &Points, alpha: Alpha, nears: &[Near], candidate: Near) -> bool
    requires nears { All (λ x. x.id < length points.now.vectors) nears.now }
    requires candidate { candidate.id < length points.now.vectors }
    ensures { result ≡ list_all (λ c. stays points.now.vectors alpha.num alpha.den c candidate) (ids_of nears.now) }
{
    let most = most_covered(alpha, candidate.dist);
    for near in nears {
        if !is_beyond(points, near.id, candidate.id, most) {
            return false;
        }
    }
    true
}
