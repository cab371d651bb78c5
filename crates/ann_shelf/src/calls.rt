//! Calls that are counted, and those of them that are to fail.
ghost use Rattle.std.specs.Prelude.{◌≡◌, ◌||◌, ◌==◌, ℕ, OnOk, OnErr};
ghost use Rattle.ann_shelf.specs.Calls.{fails, next_fails, no_calls, one_more};

use crate::NoMemory;
use std::alloc::Global;
use std::marker::Model;

/// How many calls there were, and the numbers of those that are to fail. Calls are numbered from 1.
#[derive(Drop)]
pub(crate) struct CallLog {
    made: u64,
    failing: Vec<u64>,
}

impl Model for CallLog {
    ghost use Rattle.ann_shelf.specs.Calls.{Calls};

    ghost Value = { Calls };

    ghost view = { λ c. record { made = c.made; failing = c.failing.items } };
}

impl CallLog {
    // No calls, and none that is to fail.
    pub(crate) fn new(alloc: Global) -> CallLog
        ensures { result ≡ no_calls }
    {
        CallLog {
            made: 0,
            failing: Vec::new(alloc),
        }
    }

    // How many calls there were.
    pub(crate) fn made(&self) -> u64
        ensures { result ≡ self.now.made }
    {
        self.made
    }

    // Has the call with this number fail, beside those named before.
    pub(crate) fn fail(&mut self, number: u64) -> Result<(), NoMemory>
        ensures ok { OnOk result ((n : ℕ) → fails self.new n ≡ (fails self.old n || number == n)) }
        ensures err { OnErr result (self.new ≡ self.old) }
        ensures made { self.new.made ≡ self.old.made }
    {
        self.failing.push(number)?;
        Ok(())
    }

    // Counts a call, and says whether its number is one of those that are to fail. The count stays at the last value of u64.
    pub(crate) fn is_to_fail(&mut self) -> bool
        ensures counted { self.new ≡ one_more self.old }
        ensures value { result ≡ next_fails self.old }
    {
        self.made = self.made.saturating_add(1);
        self.failing.contains(&self.made)
    }
}
