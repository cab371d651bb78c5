//! What the workers need.
ghost use Rattle.std.specs.Prelude.{◌≡◌, ◌≤◌, IfOk, length};
ghost use Rattle.steal_pool.specs.Work.{AllServe};
ghost use Rattle.beam_search.specs.Serving.{Serves};

use crate::scratch::Scratch;
use ann_defs::{MAX_BEAM, MAX_WORKERS};
use ann_shelf::NoMemory;
use bin_files::Points;
use std::alloc::Global;
use steal_pool::{Post, posts_of};

/// A post for each worker, which serves searches of these points with this beam, any number of rounds.
///
/// Memory: a `Scratch` for each worker. A failure leaves nothing.
pub fn posts_for(
    alloc: Global,
    points: &Points,
    beam: u32,
    workers: u32,
) -> Result<Vec<Post<Scratch>>, NoMemory>
    requires beam { (1 ≤ beam) × (beam ≤ MAX_BEAM) }
    requires workers { workers ≤ MAX_WORKERS }
    ensures count { IfOk result (λ v. length v.items ≡ workers) }
    ensures serve { IfOk result (λ v. AllServe (Serves (length points.now.vectors) beam) v.items) }
{
    posts_of(alloc, workers, || Scratch::new(alloc, points.count(), beam))
}
