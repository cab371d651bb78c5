//! Room for searches.
ghost use Rattle.std.specs.Prelude.{◌≡◌, ◌+◌, ◌≤◌, IfOk, [], length};
ghost use Rattle.std.specs.Borrow.{sem};
ghost use Rattle.beam_search.specs.Lending.{LendsRoom};

use ann_defs::{MAX_BEAM, MAX_DEGREE, MAX_POINTS, Near};
use ann_shelf::NoMemory;
use std::alloc::Global;
use std::marker::Model;

/// All that a search needs, and what the last one found and visited.
///
/// It serves a search where the points are as many as it was made for, and the search's beam is at most its own.
/// After each call of this crate that is handed it, it still serves the same searches.
///
/// It holds 20 bytes a point, 8 for each entry of the beam, and 1,536 more.
#[derive(Drop)]
pub struct Scratch {
    pub(crate) found: Vec<Near>,
    pub(crate) found_len: usize,
    pub(crate) visited: Vec<Near>,
    pub(crate) visited_len: usize,
    // What is lent. Nothing is known of its entries.
    pub(crate) room: Vec<Near>,
    // One for each point. None is later than `last_stamp`, so a later one marks without clearing.
    pub(crate) marks: Vec<u32>,
    pub(crate) last_stamp: u32,
    // Room for the ids of a row that a search has not seen.
    pub(crate) todo: Vec<u32>,
}

impl Model for Scratch {
    ghost use Rattle.std.specs.Prelude.{◌≡◌, ◌+◌, ◌≤◌, length};
    ghost use Rattle.near_lists.specs.Marks.{AreUpTo};
    ghost use Rattle.ann_defs.specs.GreedySearch.{walk_in};
    ghost use Rattle.beam_search.specs.Room.{Room};

    ghost Value = { Room };

    ghost view = { λ s. record { count = length s.visited.items; beam = length s.found.items; last = walk_in s.found.items s.found_len s.visited.items s.visited_len } };

    ghost invariant = { λ s. (s.found_len ≤ length s.found.items) × (s.visited_len ≤ length s.visited.items) × (length s.room.items ≡ length s.visited.items + 128) × (length s.marks.items ≡ length s.visited.items) × AreUpTo s.last_stamp s.marks.items × (length s.todo.items ≡ 128) };
}

impl Scratch {
    /// A scratch for searches of `n` points with a beam of at most `beam`. Nothing is found or visited yet.
    ///
    /// All memory is taken here. A failure leaves nothing.
    pub fn new(alloc: Global, n: u32, beam: u32) -> Result<Scratch, NoMemory>
        requires n { (1 ≤ n) × (n ≤ MAX_POINTS) }
        requires beam { (1 ≤ beam) × (beam ≤ MAX_BEAM) }
        ensures { IfOk result (λ s. s ≡ record { count = n; beam = beam; last = record { found = []; visited = [] } }) }
    {
        let none = Near { dist: 0, id: 0 };
        let found = vec![in alloc; none; beam as usize]?;
        let visited = vec![in alloc; none; n as usize]?;
        let room = vec![in alloc; none; n as usize + MAX_DEGREE as usize]?;
        let marks = vec![in alloc; 0u32; n as usize]?;
        let todo = vec![in alloc; 0u32; MAX_DEGREE as usize]?;
        Ok(Scratch {
            found,
            found_len: 0,
            visited,
            visited_len: 0,
            room,
            marks,
            last_stamp: 0,
            todo,
        })
    }
}

/// What the last search found: its list at the end, ids with their squared distances to the query, nearest first.
/// Empty before the first search.
pub fn found(scratch: &Scratch) -> &[Near]
    ensures { result.now ≡ scratch.now.last.found }
{
    &scratch.found[..scratch.found_len]
}

/// What the last search visited: ids with their squared distances to the query, in the order of the visits.
/// Empty before the first search.
pub fn visited(scratch: &Scratch) -> &[Near]
    ensures { result.now ≡ scratch.now.last.visited }
{
    &scratch.visited[..scratch.visited_len]
}

/// Room for as many entries as the scratch is for points, and for a longest row more, whatever it holds.
///
/// What is written there changes nothing else: the scratch stays as it is.
pub fn room(scratch: &mut Scratch) -> &mut [Near]
    ensures* stays { sem 𝓛 (LendsRoom scratch.entry result) }
    ensures len { length result.now ≡ scratch.old.count + MAX_DEGREE }
{
    scratch.room.as_mut_slice()
}
