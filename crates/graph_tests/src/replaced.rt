//! Files with one word replaced, each with what is read of it.
use crate::indexes::fault_of;
use ann_shelf::Quantity;
use graph_files::{IndexFault, IndexRule};
use std::alloc::Global;

/// A word that is replaced, and the place and the rule of the file's first fault.
pub(crate) type Broken = (usize, u32, u64, IndexRule);

/// A copy of a file of at most 108 bytes with a word replaced.
fn with_word(file: &[u8], place: usize, word: u32) -> [u8; 108] {
    let mut copy = [0u8; 108];
    for (cell, byte) in copy.iter_mut().zip(file) {
        *cell = *byte;
    }
    for (cell, byte) in copy.iter_mut().skip(place).zip(word.to_le_bytes()) {
        *cell = byte;
    }
    copy
}

/// Why a file with a word replaced isn't read.
fn fault_with(alloc: Global, file: &[u8], at: usize, word: u32) -> Option<IndexFault> {
    let copy = with_word(file, at, word);
    fault_of(alloc, copy.get(..file.len()).unwrap_or(&[]))
}

/// Whether a file with a word replaced is refused by a rule at a place.
pub(crate) fn breaks(alloc: Global, file: &[u8], broken: Broken) -> bool {
    let (at, word, place, rule) = broken;
    fault_with(alloc, file, at, word) == Some(IndexFault::Malformed { place, rule })
}

/// The first row of a table that a file isn't refused by.
pub(crate) fn first_unbroken(alloc: Global, file: &[u8], table: &[Broken]) -> Option<Broken> {
    for broken in table {
        if !breaks(alloc, file, *broken) {
            return Some(*broken);
        }
    }
    None
}

/// A word that is replaced, and the quantity whose limit it is over.
pub(crate) type Over = (usize, u32, Quantity, u64);

/// Whether a file with a word replaced is refused since that is over the limit of a quantity.
pub(crate) fn exceeds(alloc: Global, file: &[u8], over: Over) -> bool {
    let (at, word, name, limit) = over;
    let value = u64::from(word);
    fault_with(alloc, file, at, word) == Some(IndexFault::TooLarge { name, value, limit })
}

/// Whether a file with a word replaced is read.
pub(crate) fn is_read_with(alloc: Global, file: &[u8], at: usize, word: u32) -> bool {
    fault_with(alloc, file, at, word).is_none()
}
