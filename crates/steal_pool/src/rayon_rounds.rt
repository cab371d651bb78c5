//! Many workers, a fixed share for each.
ghost use Rattle.ann_defs.specs.declared.limits.TheConstants.{MAX_WORKERS};
ghost use Rattle.std.specs.Prelude.{◌≡◌, ◌<◌, ◌≤◌};

use crate::rounds::Rounds;
use ann_defs::Way;

/// Workers that run one fixed share of the tasks each, by `rayon`'s `par_for_each_mut` over the posts.
///
/// Of `m` tasks and `w` workers, worker `i` runs the tasks from `i·m/w` to `(i+1)·m/w`, rounded down, the upper
/// bound excluded. `rayon` may run so few items on one thread.
#[derive(Drop)]
pub struct RayonRounds {
    workers: u32,
    ghost in_range: { (0 < workers) × (workers ≤ MAX_WORKERS) },
}

impl RayonRounds {
    ghost use Rattle.steal_pool.specs.Pools.{rayon_workers};

    /// A pool of 1 to `MAX_WORKERS` workers. Takes no memory.
    pub fn new(workers: u32) -> RayonRounds
        requires { (0 < workers) × (workers ≤ MAX_WORKERS) }
        ensures { rayon_workers result ≡ workers }
    {
        RayonRounds { workers }
    }
}

impl Rounds for RayonRounds {
    ghost use Rattle.steal_pool.specs.Pools.{rayon_workers};

    ghost count = { rayon_workers };

    fn workers(&self) -> u32 {
        self.workers
    }

    fn way(&self, _shares: u32) -> Way {
        Way::Shares
    }

    fn busy(&self, _shares: u32) -> u32 {
        self.workers
    }

    ghost few = { λ p. p.in_range };
}
