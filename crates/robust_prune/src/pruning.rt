//! What prunes the candidates of a point.
ghost use Rattle.std.specs.Prelude.{◌≡◌, ◌≢◌, ℕ, ◌<◌, ◌≤◌, Bool, true, List, length, take, drop};
ghost use Rattle.std.specs.List.{All};
ghost use Rattle.std.specs.List.Sorted.{IsPermutation};
ghost use Rattle.ann_defs.specs.Nearness.{ids_of};
ghost use Rattle.ann_defs.specs.Graph.{IsGoodRow};
ghost use Rattle.ann_defs.specs.Laws.{AreAlike};
ghost use Rattle.robust_prune.specs.Candidates.{AreCandidates};

use ann_defs::Near;
use bin_files::Points;

/// A rule by which the candidates of a point become its row: which of them, and in which order.
///
/// The row of a point depends on the set of candidates alone. Workers share a rule; it takes no memory.
pub trait Pruning: Sync {
    // the vectors of the points
    ghost vectors: { Self → List (List ℕ) };

    // the greatest length of a row
    ghost most: { Self → ℕ };

    // the row of a point, of a set of ids
    ghost pruned: { Self → ℕ → List ℕ → List ℕ };

    // whether ids, in this order, are known to stay together where a point's candidates are pruned
    ghost apart: { Self → ℕ → List ℕ → Bool };

    /// The points whose candidates are pruned.
    fn points(&self) -> &Points
        ensures { result.now.vectors ≡ vectors self.now };

    /// The greatest length of a row.
    fn degree(&self) -> u32
        ensures { result ≡ most self.now };

    /// Writes the row of point `p` to the front of `out`, and returns how many ids it has.
    ///
    /// The candidates may come in any order, each with its squared distance to `p`, and are put in another one. It
    /// can't fail. Behind the row `out` stays as it was.
    fn prune(&self, p: u32, cands: &mut [Near], out: &mut [u32]) -> usize
        requires p { p < length (vectors self.now) }
        requires cands { AreCandidates (vectors self.now) p cands.old }
        requires room { most self.now ≤ length out.old }
        ensures row { take result out.new ≡ pruned self.now p (ids_of cands.old) }
        ensures rest { drop result out.new ≡ drop result out.old }
        ensures bound { result ≤ most self.now }
        ensures good { IsGoodRow (length (vectors self.now)) (most self.now) p (take result out.new) }
        ensures apart { apart self.now p (take result out.new) ≡ true }
        ensures cands { IsPermutation cands.old cands.new };

    /// The same where the first `settled` candidates are apart, as those are that an earlier prune for `p` left, in its
    /// order: they aren't tested against each other again.
    ///
    /// What `cands` holds afterwards is not said.
    fn prune_among(&self, p: u32, cands: &mut [Near], settled: usize, out: &mut [u32]) -> usize
        requires p { p < length (vectors self.now) }
        requires cands { AreCandidates (vectors self.now) p cands.old }
        requires settled { settled ≤ length cands.old }
        requires apart { apart self.now p (ids_of (take settled cands.old)) ≡ true }
        requires room { most self.now ≤ length out.old }
        ensures row { take result out.new ≡ pruned self.now p (ids_of cands.old) }
        ensures rest { drop result out.new ≡ drop result out.old }
        ensures bound { result ≤ most self.now }
        ensures good { IsGoodRow (length (vectors self.now)) (most self.now) p (take result out.new) }
        ensures apart { apart self.now p (take result out.new) ≡ true };

    // of points other than p comes a good row
    ghost good: { (s : Self) (p : ℕ) (set : List ℕ) → All (λ u. u < length (vectors s)) set → All (λ u. u ≢ p) set → IsGoodRow (length (vectors s)) (most s) p (pruned s p set) };

    // only the members of the set count
    ghost alike: { (s : Self) (p : ℕ) (xs ys : List ℕ) → AreAlike xs ys → pruned s p xs ≡ pruned s p ys };
}
