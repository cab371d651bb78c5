//! A graph over all ids below a count, in one array.
ghost use Rattle.std.specs.Prelude.{◌≡◌, ◌+◌, ◌*◌, ◌<◌, ◌≤◌, IfOk, [], nat_lt, length, slice_index_or, slice_set, replicate};
ghost use Rattle.std.specs.List.{sum_by};
ghost use Rattle.graph_rows.specs.Blocks.{block_of};
ghost use Rattle.graph_rows.specs.Flat.{Flat, with_row, row_at};
ghost use Rattle.graph_rows.specs.Index.{longest_in};

use crate::rows::Rows;
use ann_defs::{MAX_DEGREE, MAX_WORDS};
use ann_shelf::NoMemory;
use std::alloc::Global;
use std::marker::Model;

/// A row for each id below the count, of at most as many ids as its width.
///
/// The rows lie in one array of `count * (width + 1)` words, each in a block of its own: its length, then its ids. So
/// setting a row takes no memory, and a row is read in place.
#[derive(Drop)]
pub struct FlatGraph {
    count: u32,
    width: u32,
    words: Vec<u32>,
}

impl Model for FlatGraph {
    ghost use Rattle.graph_rows.specs.Flat.{Flat};
    ghost use Rattle.graph_rows.specs.Blocks.{rows_in, AreBlocks};

    ghost Value = { Flat };

    ghost view = { λ g. record { width = g.width; rows = rows_in g.count g.width g.words.items } };

    ghost invariant = { λ g. AreBlocks g.count g.width g.words.items };
}

// Writes a row into its block: the length, and then the ids.
fn write_block(block: &mut [u32], ids: &[u32])
    requires small { length ids.now ≤ MAX_DEGREE }
    requires room { length ids.now + 1 ≤ length block.old }
    ensures { block.new ≡ block_of ids.now block.old }
{
    block[0] = ids.len() as u32;
    let part = &mut block[1..1 + ids.len()];
    part.copy_from_slice(ids);
}

impl FlatGraph {
    /// A graph of empty rows. Memory: `4 * count * (width + 1)` bytes, taken once.
    pub fn new(alloc: Global, count: u32, width: u32) -> Result<FlatGraph, NoMemory>
        requires count { 1 ≤ count }
        requires width { (1 ≤ width) × (width ≤ MAX_DEGREE) }
        requires words { count * (width + 1) ≤ MAX_WORDS }
        ensures { IfOk result (λ g. g ≡ record { width = width; rows = replicate count [] }) }
    {
        let words = vec![in alloc; 0u32; count as usize * (width as usize + 1)]?;
        Ok(FlatGraph {
            count,
            width,
            words,
        })
    }

    /// The same rows with the same width, in memory of their own.
    pub fn copy(&self, alloc: Global) -> Result<FlatGraph, NoMemory>
        ensures { IfOk result (λ g. g ≡ self.now) }
    {
        let words = self.words.as_slice().to_vec(alloc)?;
        Ok(FlatGraph {
            count: self.count,
            width: self.width,
            words,
        })
    }

    /// How many rows there are.
    pub fn count(&self) -> u32
        ensures { result ≡ length self.now.rows }
    {
        self.count
    }

    /// The greatest length of a row.
    pub fn width(&self) -> u32
        ensures value { result ≡ self.now.width }
        ensures bound { result ≤ MAX_DEGREE }
    {
        self.width
    }

    /// Sets one row; all others stay.
    pub fn set_row(&mut self, i: u32, ids: &[u32])
        requires i { i < length self.old.rows }
        requires ids { length ids.now ≤ self.old.width }
        ensures { self.new ≡ with_row self.old i ids.now }
    {
        let size = self.width as usize + 1;
        let from = i as usize * size;
        write_block(&mut self.words[from..from + size], ids);
    }

    /// The row with this number.
    pub fn at(&self, i: u32) -> &[u32]
        requires { i < length self.now.rows }
        ensures row { result.now ≡ row_at self.now i }
        ensures short { length result.now ≤ self.now.width }
        ensures small { length result.now ≤ MAX_DEGREE }
    {
        let from = i as usize * (self.width as usize + 1);
        let len = self.words[from] as usize;
        &self.words[from + 1..from + 1 + len]
    }

    /// How many edges there are: the ids in all rows.
    pub fn edges(&self) -> u64
        ensures value { result ≡ sum_by (λ row. length row) self.now.rows }
        ensures bound { result ≤ MAX_WORDS }
    {
        let mut edges = 0u64;
        for i in 0..self.count {
            edges += self.at(i).len() as u64;
        }
        edges
    }

    /// The length of the longest row.
    pub fn longest(&self) -> u32
        ensures { result ≡ longest_in self.now.rows }
    {
        let mut longest = 0u32;
        for i in 0..self.count() {
            longest = longest.max(self.at(i).len() as u32);
        }
        longest
    }
}

impl Rows for FlatGraph {
    ghost held = { λ g u. nat_lt u (length g.rows) };

    ghost row_of = { λ g u. row_at g u };

    fn holds(&self, id: u32) -> bool {
        id < self.count
    }

    fn row(&self, id: u32) -> &[u32] {
        self.at(id)
    }
}
