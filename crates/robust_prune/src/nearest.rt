//! The nearest candidates.
ghost use Rattle.std.specs.Prelude.{◌≡◌, ◌≤◌, length, take, drop};
ghost use Rattle.ann_defs.specs.Nearness.{ids_of};

use crate::pruning::Pruning;
use ann_defs::Near;
use bin_files::Points;

/// Keeps the nearest candidates, at most `degree` of them, whatever lies between them (HNSW, Algorithm 3, the simple
/// selection of neighbours).
#[derive(Clone, Copy)]
pub struct NearestPrune<'p> {
    pub points: &'p Points,
    pub degree: u32,
}

impl<'p> Pruning for NearestPrune<'p> {
    ghost use Rattle.std.specs.Prelude.{length, ◌<◌, ◌≢◌, true};
    ghost use Rattle.ann_defs.specs.Distance.{point};
    ghost use Rattle.ann_defs.proofs.Alike.{least_alike};
    ghost use Rattle.robust_prune.specs.Nearest.{nearest_row, nearest_good, nearest_alike};

    ghost vectors = { λ s. s.points.now.vectors };

    ghost most = { λ s. s.degree };

    ghost pruned = { λ s p set. nearest_row s.points.now.vectors p set s.degree };

    ghost apart = { λ s p ids. true };

    fn points(&self) -> &Points {
        self.points
    }

    fn degree(&self) -> u32 {
        self.degree
    }

    fn prune(&self, _p: u32, cands: &mut [Near], out: &mut [u32]) -> usize {
        cands.sort_unstable();
        copy_first(cands, self.degree, out)
    }

    fn prune_among(&self, p: u32, cands: &mut [Near], _settled: usize, out: &mut [u32]) -> usize {
        self.prune(p, cands, out)
    }

    ghost good = { λ s p set inside others. nearest_good s.points.now.vectors p set s.degree inside others };

    ghost alike = { λ s p xs ys same. nearest_alike s.points.now.vectors p s.degree xs ys same };
}

// Copies the first ids, at most `count`, to the front of `out`. Returns how many that is.
fn copy_first(cands: &[Near], count: u32, out: &mut [u32]) -> usize
    requires { count ≤ length out.old }
    ensures ids { take result out.new ≡ ids_of (take count cands.now) }
    ensures rest { drop result out.new ≡ drop result out.old }
    ensures bound { result ≤ count }
{
    let mut len = 0;
    for candidate in cands {
        if len == count as usize {
            break;
        }
        out[len] = candidate.id;
        len += 1;
    }
    len
}
