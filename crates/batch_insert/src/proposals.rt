//! The proposals of a batch.
ghost use Rattle.std.specs.Prelude.{◌≡◌, ◌+◌, ◌*◌, ◌^◌, ◌<◌, ◌≤◌, ◌++◌, ◌∷◌, [], IfOk, MatchOption, true, false, length, slice_index, vec_len, vec_capacity};
ghost use Rattle.ann_defs.specs.declared.limits.TheConstants.{MAX_PAIRS};
ghost use Rattle.std.specs.List.Sorted.{IsNonDecreasingBy};
ghost use Rattle.std.specs.Ordering.{nat_cmp};
ghost use Rattle.ann_defs.specs.Ordered.{ordered};
ghost use Rattle.ann_defs.specs.Graph.{has};
ghost use Rattle.ann_defs.specs.Ordered.{Rises};
ghost use Rattle.batch_insert.specs.declared.pair.Pair.{Pair};
ghost use Rattle.batch_insert.specs.Proposing.{pair_cmp, targets_of, proposed_to};

use crate::pair::Pair;
use ann_shelf::NoMemory;
use std::alloc::Global;
use std::marker::Model;

/// A list of proposals that is open to additions, and, once grouped, the set of them by their targets.
///
/// A contract sees the pairs, whether they are grouped, and for how many there is room. Pairs come in any order and any
/// number of times; grouped they stand in order, each once, whoever added them.
#[derive(Drop)]
pub struct Proposals {
    pairs: Vec<Pair>,
    targets: Vec<u32>,
    grouped: bool,
    room: u64,
}

impl Model for Proposals {
    ghost use Rattle.std.specs.Prelude.{vec_capacity};
    ghost use Rattle.batch_insert.specs.Proposing.{Proposed, IsProposed};

    ghost Value = { Proposed };

    ghost view = { λ p. record { pairs = p.pairs.items; grouped = p.grouped; room = p.room } };

    ghost invariant = { λ p. IsProposed p.pairs.items p.targets.items p.grouped p.room (vec_capacity p.pairs) (vec_capacity p.targets) };
}

impl Proposals {
    /// No pairs, open to additions, with room for `k` of them: its spare is `k`.
    ///
    /// All memory is taken here, 12 bytes for each addition. A failure leaves nothing.
    pub fn with_room(alloc: Global, k: u64) -> Result<Proposals, NoMemory>
        requires { k ≤ MAX_PAIRS }
        ensures { IfOk result (λ p. p ≡ record { pairs = []; grouped = false; room = k }) }
    {
        let pairs = Vec::with_capacity(alloc, k as usize)?;
        let targets = Vec::with_capacity(alloc, k as usize)?;
        Ok(Proposals {
            pairs,
            targets,
            grouped: false,
            room: k,
        })
    }

    /// Adds that the source proposes itself to the target. The spare, `room` less the pairs added, falls by 1.
    ///
    /// It takes no memory.
    pub fn add(&mut self, target: u32, source: u32)
        requires grouped { self.old.grouped ≡ false }
        requires room { length self.old.pairs < self.old.room }
        ensures { self.new ≡ record self.old { pairs = self.old.pairs ++ record { target = target; source = source } ∷ [] } }
    {
        push_within(&mut self.pairs, Pair { target, source });
    }

    /// Closes it to additions, and puts the pairs in order by target and source, each once.
    ///
    /// It takes no memory.
    pub fn group(&mut self)
        requires { self.old.grouped ≡ false }
        ensures { self.new ≡ record self.old { pairs = ordered pair_cmp self.old.pairs; grouped = true } }
    {
        sort_once(&mut self.pairs);
        list_targets(self.pairs.as_slice(), &mut self.targets);
        self.grouped = true;
    }

    /// How many targets there are, of pairs that are grouped.
    pub fn targets(&self) -> u32
        requires { self.now.grouped ≡ true }
        ensures value { result ≡ length (targets_of self.now.pairs) }
        ensures bound { result ≤ MAX_PAIRS }
    {
        self.targets.len() as u32
    }

    /// Target `j`. The targets ascend.
    pub fn target(&self, j: u32) -> u32
        requires grouped { self.now.grouped ≡ true }
        requires j { j < length (targets_of self.now.pairs) }
        ensures { result ≡ slice_index (targets_of self.now.pairs) j }
    {
        self.targets[j as usize]
    }

    /// All pairs of target `j`, each once, by ascending sources.
    pub fn sources(&self, j: u32) -> &[Pair]
        requires grouped { self.now.grouped ≡ true }
        requires j { j < length (targets_of self.now.pairs) }
        ensures { result.now ≡ proposed_to self.now.pairs (slice_index (targets_of self.now.pairs) j) }
    {
        part_of(self.pairs.as_slice(), self.targets[j as usize])
    }

    /// Where an id stands among the targets, or None where nothing is proposed to it.
    pub fn place(&self, target: u32) -> Option<u32>
        requires { self.now.grouped ≡ true }
        ensures { MatchOption result (has (targets_of self.now.pairs) target ≡ false) (λ j. (j < length (targets_of self.now.pairs)) × (slice_index (targets_of self.now.pairs) j ≡ target)) }
    {
        place_in(self.targets.as_slice(), target)
    }

    /// Drops all pairs, and opens it again. Its spare is then again what it was made with.
    pub fn clear(&mut self)
        ensures { self.new ≡ record self.old { pairs = []; grouped = false } }
    {
        self.pairs.clear();
        self.grouped = false;
    }
}

// Adds an item where there is room.
fn push_within<T: Copy>(items: &mut Vec<T>, item: T)
    requires { vec_len items.old < vec_capacity items.old }
    ensures items { items.new.items ≡ items.old.items ++ item ∷ [] }
    ensures capacity { vec_capacity items.old ≤ vec_capacity items.new }
{
    match items.push(item) {
        Ok(()) => {}
        Err(_) => {}
    }
}

// Writes the targets of sorted pairs, each once.
fn list_targets(pairs: &[Pair], targets: &mut Vec<u32>)
    requires sorted { IsNonDecreasingBy (λ (p : Pair). p.target) pairs.now }
    requires room { length pairs.now ≤ vec_capacity targets.old }
    ensures items { targets.new.items ≡ targets_of pairs.now }
    ensures few { length targets.new.items ≤ length pairs.now }
    ensures capacity { vec_capacity targets.old ≤ vec_capacity targets.new }
{
    targets.clear();
    for i in 0..pairs.len() {
        if i == 0 || pairs[i - 1].target != pairs[i].target {
            push_within(targets, pairs[i].target);
        }
    }
}

// Sorts pairs, and drops doubles.
fn sort_once(pairs: &mut Vec<Pair>)
    ensures items { pairs.new.items ≡ ordered pair_cmp pairs.old.items }
    ensures few { length pairs.new.items ≤ length pairs.old.items }
    ensures capacity { vec_capacity pairs.new ≡ vec_capacity pairs.old }
{
    pairs.sort_unstable();
    pairs.dedup();
}

// The pairs of one target among sorted pairs.
fn part_of(pairs: &[Pair], target: u32) -> &[Pair]
    requires sorted { IsNonDecreasingBy (λ (p : Pair). p.target) pairs.now }
    ensures { result.now ≡ proposed_to pairs.now target }
{
    let from = pairs.partition_point(|p| p.target < target);
    let rest = &pairs[from..];
    let count = rest.partition_point(|p| p.target <= target);
    &rest[..count]
}

// Where a target stands among ascending targets.
fn place_in(targets: &[u32], target: u32) -> Option<u32>
    requires rises { Rises nat_cmp targets.now }
    requires small { length targets.now < 2 ^ 32 }
    ensures { MatchOption result (has targets.now target ≡ false) (λ j. (j < length targets.now) × (slice_index targets.now j ≡ target)) }
{
    match targets.binary_search(&target) {
        Ok(j) => Some(j as u32),
        Err(_) => None,
    }
}
