//! RobustPrune over candidates that are sorted first.
ghost use Rattle.std.specs.Prelude.{◌≡◌, ◌*◌, ◌/◌, ◌<◌, ◌≤◌, nat_lt, length, take, drop};
ghost use Rattle.std.specs.List.{All, list_all};
ghost use Rattle.std.specs.List.Sorted.{IsPermutation};
ghost use Rattle.ann_defs.specs.Distance.{dist_of, point};
ghost use Rattle.ann_defs.specs.Nearness.{ids_of};
ghost use Rattle.ann_defs.specs.Graph.{IsGoodRow};
ghost use Rattle.ann_defs.specs.RobustPrune.{stays, kept, pruned_row};
ghost use Rattle.robust_prune.specs.Candidates.{AreCandidates};
ghost use Rattle.robust_prune.specs.Pruned.{IsPruned};

use crate::among::prune_among;
use crate::pruning::Pruning;
use ann_defs::{Alpha, Near};
use bin_files::Points;
use lane_distance::dist_within;

/// RobustPrune with its factor and the greatest length of a row (DiskANN, Algorithm 2).
#[derive(Clone, Copy)]
pub struct RobustPrune<'p> {
    pub points: &'p Points,
    pub alpha: Alpha,
    pub degree: u32,
}

impl<'p> Pruning for RobustPrune<'p> {
    ghost use Rattle.std.specs.Prelude.{◌<◌, ◌≢◌};
    ghost use Rattle.ann_defs.proofs.Alike.{prune_alike};
    ghost use Rattle.ann_defs.proofs.GoodRows.{prune_good};
    ghost use Rattle.ann_defs.proofs.Order.{All_has};
    ghost use Rattle.robust_prune.specs.Apart.{are_apart};

    ghost vectors = { λ s. s.points.now.vectors };

    ghost most = { λ s. s.degree };

    ghost pruned = { λ s p set. pruned_row s.points.now.vectors p set s.alpha.num s.alpha.den s.degree };

    ghost apart = { λ s p ids. are_apart s.points.now.vectors s.alpha.num s.alpha.den p ids };

    fn points(&self) -> &Points {
        self.points
    }

    fn degree(&self) -> u32 {
        self.degree
    }

    fn prune(&self, p: u32, cands: &mut [Near], out: &mut [u32]) -> usize {
        prune(self.points, p, cands, self.alpha, self.degree, out)
    }

    fn prune_among(&self, p: u32, cands: &mut [Near], settled: usize, out: &mut [u32]) -> usize {
        prune_among(self.points, p, cands, settled, self.alpha, self.degree, out)
    }

    ghost good = { λ s p set inside others. prune_good s.points.now.vectors p set s.alpha.num s.alpha.den s.degree (length s.points.now.vectors) (λ u h. All_has (λ v. v < length s.points.now.vectors) set u inside h) (λ u h. All_has (λ v. v ≢ p) set u others h) };

    ghost alike = { λ s p xs ys same. prune_alike s.points.now.vectors p xs ys s.alpha.num s.alpha.den s.degree same };
}

/// Writes the row of point `p` to the front of `out`, nearest first, and returns how many ids it has.
///
/// The candidates may come in any order, each with its squared distance to `p`, and are put in another one. Of those
/// that are left the nearest is kept (ties go to the smaller id), and every other one is removed whose squared distance
/// to the kept one, times `num`, is at most `den` times that to `p`. This goes on until `degree` ids are kept or no
/// candidate is left. It is DiskANN, Algorithm 2, where the factor on squared distances is the square of the paper's.
///
/// It can't fail and takes no memory. Behind the row `out` stays as it was. Its cost is at most `degree` distances
/// for each candidate, after a sort.
pub fn prune(
    points: &Points,
    p: u32,
    cands: &mut [Near],
    alpha: Alpha,
    degree: u32,
    out: &mut [u32],
) -> usize
    requires p { p < length points.now.vectors }
    requires cands { AreCandidates points.now.vectors p cands.old }
    requires room { degree ≤ length out.old }
    ensures row { take result out.new ≡ pruned_row points.now.vectors p (ids_of cands.old) alpha.num alpha.den degree }
    ensures rest { drop result out.new ≡ drop result out.old }
    ensures bound { result ≤ degree }
    ensures good { IsGoodRow (length points.now.vectors) degree p (take result out.new) }
    ensures pruned { IsPruned points.now.vectors p alpha.num alpha.den degree (ids_of cands.old) (take result out.new) }
    ensures cands { IsPermutation cands.old cands.new }
{
    cands.sort_unstable();
    keep(points, cands, alpha, degree, out)
}

// Keeps of the candidates, in their order, those that stay beside all that are kept before. The kept ones are collected at
// the front of the candidates.
fn keep(points: &Points, cands: &mut [Near], alpha: Alpha, degree: u32, out: &mut [u32]) -> usize
    requires ids { All (λ x. x.id < length points.now.vectors) cands.old }
    requires room { degree ≤ length out.old }
    ensures kept { take result out.new ≡ ids_of (kept (stays points.now.vectors alpha.num alpha.den) degree cands.old) }
    ensures rest { drop result out.new ≡ drop result out.old }
    ensures bound { result ≤ degree }
    ensures cands { IsPermutation cands.old cands.new }
{
    let mut len = 0;
    for i in 0..cands.len() {
        if len == degree as usize {
            break;
        }
        let candidate = cands[i];
        if stays_beside_kept(points, alpha, &mut cands[..len], candidate) {
            out[len] = candidate.id;
            cands.swap(len, i);
            len += 1;
        }
    }
    len
}

// Whether the candidate stays beside each of the kept ones. One that removes it moves towards the front: the next
// candidates are near this one, so it likely removes them too.
fn stays_beside_kept(points: &Points, alpha: Alpha, kept: &mut [Near], candidate: Near) -> bool
    requires kept { All (λ x. x.id < length points.now.vectors) kept.old }
    requires candidate { candidate.id < length points.now.vectors }
    ensures beside { result ≡ list_all (λ c. stays points.now.vectors alpha.num alpha.den c candidate) (ids_of kept.old) }
    ensures kept { IsPermutation kept.old kept.new }
{
    let most = most_covered(alpha, candidate.dist);
    for i in 0..kept.len() {
        if !is_beyond(points, kept[i].id, candidate.id, most) {
            kept.swap(i, i / 2);
            return false;
        }
    }
    true
}

// The greatest squared distance to a kept id at which that one removes a candidate with this distance to the point.
pub(crate) fn most_covered(alpha: Alpha, dist: u32) -> u32
    ensures { result ≡ alpha.den * dist / alpha.num }
{
    (alpha.den as u64 * dist as u64 / alpha.num as u64) as u32
}

// Whether a point is farther than that from an id. The distance is taken only as far as that shows.
pub(crate) fn is_beyond(points: &Points, neighbour: u32, id: u32, most: u32) -> bool
    requires neighbour { neighbour < length points.now.vectors }
    requires id { id < length points.now.vectors }
    ensures { result ≡ nat_lt most (dist_of (point points.now.vectors neighbour) (point points.now.vectors id)) }
{
    most < dist_within(points.at(neighbour), points.at(id), most)
}
