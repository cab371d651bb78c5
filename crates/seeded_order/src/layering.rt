//! The levels of HNSW.
ghost use Rattle.std.specs.Prelude.{◌≡◌, ◌≤◌, IfOk};
ghost use Rattle.seeded_order.specs.Levels.{level_of, levels_of};

use crate::words::words_from;
use ann_defs::MAX_POINTS;
use ann_shelf::NoMemory;
use rand_core::utils::NextWord;
use std::alloc::Global;

/// The level that a word gives: one for every `bits` leading zero bits, at most `max`.
///
/// It stands for the draw of a level in HNSW (Algorithm 1, line 4), where `bits` zero bits more are 2 to the power of
/// `bits` times as rare.
pub fn level(word: u64, bits: u32, max: u8) -> u8
    requires bits { (1 ≤ bits) × (bits ≤ 8) }
    requires max { max ≤ 15 }
    ensures value { result ≡ level_of bits max word }
    ensures bound { result ≤ max }
{
    let full = word.leading_zeros() / bits;
    if full < u32::from(max) {
        full as u8
    } else {
        max
    }
}

/// The level of each id below n, by the words of stream 2.
///
/// Memory: a byte for each id.
pub fn levels(alloc: Global, n: u32, seed: u64, bits: u32, max: u8) -> Result<Vec<u8>, NoMemory>
    requires n { (1 ≤ n) × (n ≤ MAX_POINTS) }
    requires bits { (1 ≤ bits) × (bits ≤ 8) }
    requires max { max ≤ 15 }
    ensures { IfOk result (λ v. v.items ≡ levels_of n seed bits max) }
{
    let mut words = words_from(seed, 2, 0);
    let mut list = Vec::with_capacity(alloc, n as usize)?;
    for _id in 0..n {
        list.push(level(words.next_word(), bits, max))?;
    }
    Ok(list)
}
