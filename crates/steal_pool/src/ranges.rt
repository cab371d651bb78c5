//! Ranges of tasks, which lie in the deques.
ghost use Rattle.std.specs.Prelude.{◌≡◌, ◌+◌, ◌-◌, ◌<◌, ◌≤◌, IfSome};

use crate::shares::first_task;
use ann_defs::MAX_WORKERS;

/// The tasks from `from` on, up to `to`, which is excluded: at least one.
#[derive(Clone, Copy, Drop)]
pub(crate) struct TaskRange {
    from: u32,
    to: u32,
    ghost some: { from < to },
}

impl TaskRange {
    // The share of a worker, if it has a task.
    pub(crate) fn share(tasks: u32, workers: u32, worker: u32) -> Option<TaskRange>
        requires { (worker < workers) × (workers ≤ MAX_WORKERS) }
        ensures { IfSome result (λ r. r.to ≤ tasks) }
    {
        let from = first_task(tasks, workers, worker);
        let to = first_task(tasks, workers, worker + 1);
        if from >= to {
            return None;
        }
        Some(TaskRange { from, to })
    }

    pub(crate) fn from(&self) -> u32
        ensures { result ≡ self.now.from }
    {
        self.from
    }

    pub(crate) fn to(&self) -> u32
        ensures { result ≡ self.now.to }
    {
        self.to
    }

    // Keeps the lower half, and gives the upper half, if there are two tasks or more.
    pub(crate) fn split(&mut self) -> Option<TaskRange>
        ensures from { self.new.from ≡ self.old.from }
        ensures less { self.new.to ≤ self.old.to }
        ensures upper { IfSome result (λ r. (r.from ≡ self.new.to) × (r.to ≡ self.old.to) × (self.new.to < self.old.to)) }
    {
        let tasks = self.to - self.from;
        if tasks < 2 {
            return None;
        }
        let middle = self.from + tasks / 2;
        let upper = TaskRange {
            from: middle,
            to: self.to,
        };
        *self = TaskRange {
            from: self.from,
            to: middle,
        };
        Some(upper)
    }
}
