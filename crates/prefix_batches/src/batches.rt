//! The bounds of batches, one after another.
ghost use Rattle.std.specs.Prelude.{◌≡◌, ◌+◌, ◌<◌, ◌≤◌, ℕ, max, IsSome, IsNone, IfSome, ◌↔◌};
ghost use Rattle.ann_defs.specs.BatchInsert.{bound_at, total_of, default_cap, cap_of};

use ann_defs::MAX_POINTS;
use std::marker::Model;

/// The batches of `n` points, given one after another.
///
/// Each stands for a part of the insertion order, by its places: from the lower bound on, the upper one excluded. The
/// bounds are 0, 1, and then each time the last one and as much again, but at most `cap` more and never more than `n`:
/// the prefix doubling of ParlayANN's batch insertion. A contract sees `n`, `cap` and how many batches were given
/// already. It holds five numbers and no other memory.
#[derive(Drop)]
pub struct Batches {
    n: u32,
    cap: u32,
    total: u32,
    done: u32,
    reached: u32,
}

impl Model for Batches {
    ghost use Rattle.std.specs.Prelude.{◌≡◌, ◌≤◌};
    ghost use Rattle.ann_defs.specs.BatchInsert.{bound_at, total_of};
    ghost use Rattle.ann_defs.specs.declared.limits.TheConstants.{MAX_POINTS};
    ghost use Rattle.prefix_batches.specs.Progress.{Progress};

    ghost Value = { Progress };

    ghost view = { λ b. record { n = b.n; cap = b.cap; done = b.done } };

    ghost invariant = { λ b. (1 ≤ b.n) × (b.n ≤ MAX_POINTS) × (1 ≤ b.cap) × (b.cap ≤ MAX_POINTS)
        × (b.total ≡ total_of b.n b.cap) × (b.done ≤ b.total) × (b.reached ≡ bound_at b.n b.cap b.done) };
}

impl Batches {
    /// The batches of `n` points of which none holds more than `cap`, before the first is given.
    ///
    /// Takes as many steps as there are batches.
    pub fn new(n: u32, cap: u32) -> Batches
        requires points { (1 ≤ n) × (n ≤ MAX_POINTS) }
        requires cap { (1 ≤ cap) × (cap ≤ MAX_POINTS) }
        ensures { result ≡ record { n = n; cap = cap; done = 0 } }
    {
        let total = count_batches(n, cap);
        Batches {
            n,
            cap,
            total,
            done: 0,
            reached: 0,
        }
    }

    /// The bounds of the next batch, or `None` if all points are in a batch already.
    pub fn next(&mut self) -> Option<(u32, u32)>
        ensures counted { IsSome result ↔ (self.old.done < total_of self.old.n self.old.cap) }
        ensures ended { IsNone result ↔ (bound_at self.old.n self.old.cap self.old.done ≡ self.old.n) }
        ensures bounds { IfSome result (λ b. b ≡ (bound_at self.old.n self.old.cap self.old.done, bound_at self.old.n self.old.cap (self.old.done + 1))) }
        ensures some { IfSome result (λ b. (b.0 < b.1) × (b.1 ≤ self.old.n)) }
        ensures given { IfSome result (λ _. self.new ≡ record self.old { done = self.old.done + 1 }) }
        ensures same { IsNone result → self.new ≡ self.old }
    {
        if self.reached == self.n {
            return None;
        }
        let from = self.reached;
        let to = bound_after(self.n, self.cap, from);
        self.done += 1;
        self.reached = to;
        Some((from, to))
    }

    /// How many batches there are, both given and still to come.
    pub fn total(&self) -> u32
        ensures value { result ≡ total_of self.now.n self.now.cap }
        ensures some { 1 ≤ result }
        ensures bound { result ≤ self.now.n }
        ensures done { self.now.done ≤ result }
    {
        self.total
    }
}

// The bound that follows a bound below n.
fn bound_after(n: u32, cap: u32, bound: u32) -> u32
    requires points { (1 ≤ n) × (n ≤ MAX_POINTS) }
    requires cap { (1 ≤ cap) × (cap ≤ MAX_POINTS) }
    requires bound { bound < n }
    ensures next { (k : ℕ) → bound ≡ bound_at n cap k → result ≡ bound_at n cap (k + 1) }
    ensures rises { bound < result }
    ensures within { result ≤ n }
{
    if bound == 0 {
        return 1;
    }
    n.min(bound + bound.min(cap))
}

// How many batches there are.
fn count_batches(n: u32, cap: u32) -> u32
    requires points { (1 ≤ n) × (n ≤ MAX_POINTS) }
    requires cap { (1 ≤ cap) × (cap ≤ MAX_POINTS) }
    ensures { result ≡ total_of n cap }
{
    let mut count = 0;
    let mut reached = 0;
    while reached < n {
        reached = bound_after(n, cap, reached);
        count += 1;
    }
    count
}

/// The cap where none is set: a fiftieth of the points, rounded up, and at least 1.
pub fn default_cap(n: u32) -> u32
    ensures value { result ≡ default_cap n }
    ensures some { 1 ≤ result }
    ensures bound { result ≤ max 1 n }
{
    n.div_ceil(50).max(1)
}

/// The greatest number of points in a batch: the cap that is set, or else the default one.
pub fn cap_for(n: u32, cap: Option<u32>) -> u32
    requires points { n ≤ MAX_POINTS }
    requires cap { IfSome cap (λ cap. (1 ≤ cap) × (cap ≤ MAX_POINTS)) }
    ensures value { result ≡ cap_of n cap }
    ensures some { 1 ≤ result }
    ensures bound { result ≤ MAX_POINTS }
{
    match cap {
        Some(cap) => cap,
        None => default_cap(n),
    }
}
