//! One pool for every way.
ghost use Rattle.ann_defs.specs.declared.limits.TheConstants.{MAX_WORKERS};
ghost use Rattle.std.specs.Prelude.{◌≡◌, ◌<◌, ◌≤◌};

use crate::rounds::Rounds;
use ann_defs::Way;

/// Workers that run each round in the way that was asked for.
///
/// All of them take part in each round, but for a pool that spares threads: there a worker takes part only if there are
/// as many tasks for it as make up for starting its thread (`Work::least`). The others do nothing, and their posts stay
/// as they are. A round for one worker runs in the caller's thread.
#[derive(Drop)]
pub struct Pool {
    way: Way,
    workers: u32,
    spares: bool,
    ghost in_range: { (0 < workers) × (workers ≤ MAX_WORKERS) },
}

impl Pool {
    ghost use Rattle.steal_pool.specs.Pools.{pool_workers, workers_for};

    /// A pool that runs its rounds in this way: one worker for `Serial`, and else 1 to `MAX_WORKERS` of them. Takes no
    /// memory.
    pub fn new(way: Way, workers: u32) -> Pool
        requires { (0 < workers) × (workers ≤ MAX_WORKERS) }
        ensures { pool_workers result ≡ workers_for way workers }
    {
        let workers = match way {
            Way::Serial => 1,
            Way::Shares | Way::Stealing => workers,
        };
        Pool {
            way,
            workers,
            spares: false,
        }
    }

    /// The same pool, but that it spares threads: they cost more than they bring to rounds of few short tasks.
    pub fn sparing(self) -> Pool
        ensures { pool_workers result ≡ pool_workers self }
    {
        Pool {
            way: self.way,
            workers: self.workers,
            spares: true,
        }
    }
}

impl Rounds for Pool {
    ghost use Rattle.steal_pool.specs.Pools.{pool_workers};

    ghost count = { pool_workers };

    fn workers(&self) -> u32 {
        self.workers
    }

    fn way(&self, shares: u32) -> Way {
        if self.busy(shares) == 1 {
            Way::Serial
        } else {
            self.way
        }
    }

    fn busy(&self, shares: u32) -> u32 {
        if self.spares {
            shares.clamp(1, self.workers)
        } else {
            self.workers
        }
    }

    ghost few = { λ p. p.in_range };
}
