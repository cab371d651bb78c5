//! How the rows of targets are merged.
ghost use Rattle.std.specs.Prelude.{◌≡◌, ℕ, ◌<◌, ◌≤◌, Bool, true, List, length, take};
ghost use Rattle.ann_defs.specs.Graph.{IsGoodRow};
ghost use Rattle.batch_insert.specs.Sources.{sources_in, AreSources};

use crate::pair::Pair;

/// A merge of rows with their sources, by workers that each have a scratch.
///
/// An instance calls `merged_row` with its prune and with the room in its scratch. Workers share it; it takes no memory.
pub trait Merging: Sync {
    /// What a worker needs to merge rows, one after another.
    type Scratch: Send;

    // how many points there are
    ghost count: { Self → ℕ };

    // the greatest length of a row
    ghost most: { Self → ℕ };

    // the row of a target, of its row so far and its sources
    ghost merged: { Self → ℕ → List ℕ → List ℕ → List ℕ };

    // whether what the merge knows of a target's row holds, as that some of its ids stay together in a prune
    ghost knows: { Self → ℕ → List ℕ → Bool };

    // which scratches serve
    ghost serves: { Self → Self.Scratch → Type 0 };

    /// The greatest length of a row.
    fn degree(&self) -> u32
        ensures { result ≡ most self.now };

    /// Writes the merged row of the target to the front of `out`, and returns how many ids it has.
    fn merge(
        &self,
        scratch: &mut Self::Scratch,
        target: u32,
        row: &[u32],
        sources: &[Pair],
        out: &mut [u32],
    ) -> usize
        requires target { target < count self.now }
        requires row { IsGoodRow (count self.now) (most self.now) target row.now }
        requires sources { AreSources (count self.now) target (sources_in sources.now) }
        requires known { knows self.now target row.now ≡ true }
        requires scratch { serves self.now scratch.old }
        requires out { most self.now ≤ length out.old }
        ensures row { take result out.new ≡ merged self.now target row.now (sources_in sources.now) }
        ensures bound { result ≤ most self.now }
        ensures scratch { serves self.now scratch.new };

    // a merge keeps a row good
    ghost good: { (m : Self) (t : ℕ) (row sources : List ℕ) → t < count m → IsGoodRow (count m) (most m) t row → AreSources (count m) t sources → IsGoodRow (count m) (most m) t (merged m t row sources) };
}
