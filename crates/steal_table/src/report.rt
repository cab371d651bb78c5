//! Who ran which task.
ghost use Rattle.std.specs.Prelude.{◌≡◌, ◌==◌, ◌+◌, ◌<◌, ◌≤◌, ◌^◌, length, sum, map, count_by, All, slice_index_or};
ghost use Rattle.std.specs.List.{range_with_len};
ghost use Rattle.steal_table.specs.Report.{tasks_run};

use std::marker::Model;

/// Who ran each task of a stolen round: a worker, or the caller in its sweep, whose number is the number of workers.
#[derive(Drop)]
pub struct Report {
    owners: Vec<u32>,
    workers: u32,
}

impl Model for Report {
    ghost use Rattle.std.specs.Prelude.{All, length, ◌≤◌, ◌<◌, ◌^◌};
    ghost use Rattle.steal_table.specs.Report.{Owned};

    ghost Value = { Owned };

    ghost view = { λ r. record { owners = r.owners.items; workers = r.workers } };

    ghost invariant = { λ r. (length r.owners.items < 2 ^ 32) × All (λ i. i ≤ r.workers) r.owners.items };
}

impl Report {
    pub(crate) fn of(owners: Vec<u32>, workers: u32) -> Report
        requires few { length owners.items < 2 ^ 32 }
        requires owners { All (λ i. i ≤ workers) owners.items }
        ensures { result ≡ record { owners = owners.items; workers = workers } }
    {
        Report { owners, workers }
    }

    /// The number of the worker that ran this task. The number of workers itself means the sweep.
    pub fn owner(&self, task: u32) -> u32
        requires { task < length self.now.owners }
        ensures owner { result ≡ slice_index_or self.now.owners task 0 }
        ensures known { result ≤ self.now.workers }
    {
        self.owners[task as usize]
    }

    /// How many tasks this worker ran. It looks at each task's owner.
    pub fn ran(&self, worker: u32) -> u32
        requires { worker < self.now.workers }
        ensures { result ≡ tasks_run self.now worker }
    {
        count_of(self.owners.as_slice(), worker)
    }

    /// How many tasks the sweep ran: those that the workers left.
    pub fn swept(&self) -> u32
        ensures count { result ≡ tasks_run self.now self.now.workers }
        ensures adds_up { sum (map (tasks_run self.now) (range_with_len 0 self.now.workers)) + result ≡ length self.now.owners }
    {
        count_of(self.owners.as_slice(), self.workers)
    }
}

// How many of the owners are this number.
fn count_of(owners: &[u32], number: u32) -> u32
    requires { length owners.now < 2 ^ 32 }
    ensures { result ≡ count_by (λ j. j == number) owners.now }
{
    let mut count = 0;
    for task in 0..owners.len() {
        count += u32::from(owners[task] == number);
    }
    count
}
