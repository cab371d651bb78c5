//! Many workers that steal tasks from each other.
ghost use Rattle.ann_defs.specs.declared.limits.TheConstants.{MAX_WORKERS};
ghost use Rattle.std.specs.Prelude.{◌≡◌, ◌<◌, ◌≤◌};

use crate::rounds::Rounds;
use ann_defs::Way;

/// Workers that run one `Round` for each call: a fixed share each at first, and then what they steal from each other.
///
/// The last worker runs in the caller's thread, and each other in a thread of its own where one can be started.
#[derive(Drop)]
pub struct StealRounds {
    workers: u32,
    ghost in_range: { (0 < workers) × (workers ≤ MAX_WORKERS) },
}

impl StealRounds {
    ghost use Rattle.steal_pool.specs.Pools.{steal_workers};

    /// A pool of 1 to `MAX_WORKERS` workers. Takes no memory.
    pub fn new(workers: u32) -> StealRounds
        requires { (0 < workers) × (workers ≤ MAX_WORKERS) }
        ensures { steal_workers result ≡ workers }
    {
        StealRounds { workers }
    }
}

impl Rounds for StealRounds {
    ghost use Rattle.steal_pool.specs.Pools.{steal_workers};

    ghost count = { steal_workers };

    fn workers(&self) -> u32 {
        self.workers
    }

    fn way(&self, _shares: u32) -> Way {
        Way::Stealing
    }

    fn busy(&self, _shares: u32) -> u32 {
        self.workers
    }

    ghost few = { λ p. p.in_range };
}
