//! Points that a seed gives.
ghost use Rattle.std.specs.Prelude.{◌≡◌, ◌+◌, ◌*◌, ◌<◌, ◌≤◌, IfOk, map, slice_index, vec_len};
ghost use Rattle.std.specs.Int.{w64, to_le_bytes};
ghost use Rattle.std.specs.List.{range_with_len};
ghost use Rattle.seeded_order.specs.Generator.{generated_byte, made_points_of};

use crate::words::words_from;
use ann_defs::{Element, MAX_CELLS, MAX_DIM, MAX_POINTS};
use ann_shelf::NoMemory;
use bin_files::Points;
use rand_core::utils::NextWord;
use std::alloc::Global;

// A byte of a word, counted from the least significant one.
fn byte_of(word: u64, place: u64) -> u8
    requires { place < 8 }
    ensures { result ≡ slice_index (to_le_bytes w64 word) place }
{
    word.to_le_bytes()[place as usize]
}

// So many bytes of stream 0, from the byte with this number on.
fn made_bytes(alloc: Global, len: u64, seed: u64, first: u64) -> Result<Vec<u8>, NoMemory>
    requires { first + len ≤ 2147483648 }
    ensures bytes { IfOk result (λ v. v.items ≡ map (generated_byte seed) (range_with_len first len)) }
    ensures len { IfOk result (λ v. vec_len v ≡ len) }
{
    let mut words = words_from(seed, 0, first / 8);
    let mut word = words.next_word();
    let mut bytes = Vec::with_capacity(alloc, len as usize)?;
    for k in 0..len {
        let at = first + k;
        bytes.push(byte_of(word, at % 8))?;
        if at % 8 == 7 {
            word = words.next_word();
        }
    }
    Ok(bytes)
}

/// `count` points of `dim` bytes each. Byte i of all of them is the byte `first + i` of the generator, which lays
/// out the words of stream 0 one after another, the least significant byte of each first.
///
/// Memory: the bytes of the points.
pub fn made_points(
    alloc: Global,
    count: u32,
    dim: u32,
    seed: u64,
    first: u64,
) -> Result<Points, NoMemory>
    requires count { (1 ≤ count) × (count ≤ MAX_POINTS) }
    requires dim { (1 ≤ dim) × (dim ≤ MAX_DIM) }
    requires cells { count * dim ≤ MAX_CELLS }
    requires first { first ≤ MAX_CELLS }
    ensures vectors { IfOk result (λ p. p.vectors ≡ made_points_of count dim seed first) }
    ensures element { IfOk result (λ p. p.element ≡ Element.U8) }
{
    let len = u64::from(count) * u64::from(dim);
    let bytes = made_bytes(alloc, len, seed, first)?;
    Ok(Points::from_bytes(dim, bytes))
}
