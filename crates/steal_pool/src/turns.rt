//! Where a worker looks for its next range.
ghost use Rattle.std.specs.Prelude.{◌<◌, ◌≤◌, length};

use crate::ranges::TaskRange;
use ann_defs::MAX_WORKERS;
use crossbeam_deque::{Steal, Stealer, Worker};

/// The state of a worker's search. A turn is one pop from its own deque, or one try to steal from another.
#[derive(Drop)]
pub(crate) struct Search {
    // the worker's own deque was found empty, and nothing was pushed since
    own_is_empty: bool,
    // the worker whose deque it tried last
    victim: u32,
    // how many tries to steal found a deque empty, one after another
    found_empty: u32,
}

impl Search {
    // A search that begins with the worker's own deque.
    pub(crate) fn new(worker: u32) -> Search {
        Search {
            own_is_empty: false,
            victim: worker,
            found_empty: 0,
        }
    }

    // Whether the deques of all other workers were found empty, one after another.
    pub(crate) fn is_over(&self, workers: u32) -> bool {
        self.own_is_empty && self.found_empty.saturating_add(1) >= workers
    }

    // Makes a turn: a pop while the own deque may hold a range, and then a try to steal from the next worker.
    pub(crate) fn turn(
        &mut self,
        worker: u32,
        deque: &mut Worker<TaskRange>,
        stealers: &[Stealer<TaskRange>],
    ) -> Option<TaskRange>
        requires { (0 < length stealers.now) × (length stealers.now ≤ MAX_WORKERS) }
    {
        if !self.own_is_empty {
            let range = deque.pop();
            self.own_is_empty = range.is_none();
            return range;
        }
        self.victim = next_victim(self.victim, worker, stealers.len() as u32);
        match stealers[self.victim as usize].steal() {
            Steal::Success(range) => {
                self.own_is_empty = false;
                self.found_empty = 0;
                Some(range)
            }
            Steal::Empty => {
                self.found_empty = self.found_empty.saturating_add(1);
                None
            }
            Steal::Retry => {
                self.found_empty = 0;
                None
            }
        }
    }
}

// The next of the other workers, in cyclic order; of one worker alone, itself.
fn next_victim(victim: u32, worker: u32, workers: u32) -> u32
    requires { (0 < workers) × (workers ≤ MAX_WORKERS) }
    ensures { result < workers }
{
    let next = (victim % workers + 1) % workers;
    if next == worker {
        return (next + 1) % workers;
    }
    next
}
