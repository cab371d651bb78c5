//! Rows of ids, read one after another.
ghost use Rattle.std.specs.Prelude.{◌≡◌, ◌+◌, ◌*◌, ◌<◌, ◌≤◌, ◌^◌, [], length, take, IfOk, IfSome, IsErrOf};
ghost use Rattle.ann_defs.specs.Graph.{has};
ghost use Rattle.ann_shelf.specs.Files.{bytes_of};
ghost use Rattle.ann_shelf.specs.Shown.{OnlyReads};
ghost use Rattle.graph_files.specs.Grammar.{id_fault, ids_at, row_at, rows_at};
ghost use Rattle.graph_rows.specs.Members.{holds, owns, count_in, AreAscending, AreRows};
ghost use Rattle.graph_files.specs.Reading.{AreBytesIn, Gives, Shows};
ghost use Rattle.graph_rows.specs.WellFormed.{IsRowIn};

use crate::row_room::see_room;
use crate::shown_row::read_shown;
use crate::window::Window;
use crate::{FlatGraph, IndexFault, IndexRule};
use ann_defs::{MAX_DEGREE, MAX_POINTS, MAX_WORDS};
use ann_shelf::Shelf;
use graph_rows::Members;
use std::alloc::Global;

/// Whether an id is among these. All are compared, without a branch, so that several are at once.
pub(crate) fn among(id: u32, ids: &[u32]) -> bool
    ensures { result ≡ has ids.now id }
{
    let mut found = false;
    for other in ids {
        found |= *other == id;
    }
    found
}

// The first rule that an id breaks after these ids of its row.
fn fault_in_row(members: Members, own: u32, place: u64, ids: &[u32], id: u32) -> Option<IndexFault>
    requires { AreAscending members }
    ensures { result ≡ id_fault (holds members.entry) own place ids.now id }
{
    if !members.hold(id) {
        return Some(IndexFault::Malformed {
            place,
            rule: IndexRule::IdRange,
        });
    }
    if id == own {
        return Some(IndexFault::Malformed {
            place,
            rule: IndexRule::SelfEdge,
        });
    }
    if among(id, ids) {
        return Some(IndexFault::Malformed {
            place,
            rule: IndexRule::DoubleEdge,
        });
    }
    None
}

// The ids of a row, from a place on.
fn read_ids<F: Shelf>(
    shelf: &mut F,
    name: &str,
    window: &mut Window,
    members: Members,
    own: u32,
    at: u64,
    len: usize,
    ids: &mut [u32],
) -> Result<(), IndexFault>
    requires place { at + 32768 < 2 ^ 64 }
    requires len { len ≤ MAX_DEGREE }
    requires room { len ≤ length ids.old }
    requires ascending { AreAscending members }
    requires shows { IfSome (F.shown shelf.old).held (λ files. Shows (bytes_of files name.now) window.old) }
    ensures ids { IfSome (F.shown shelf.old).held (λ files. Gives (λ _. take len ids.new) result (ids_at (holds members.entry) own (bytes_of files name.now) len at [])) }
    ensures row { IfOk result (λ _. IsRowIn (holds members.entry) len own (take len ids.new)) }
    ensures bytes { IfOk result (λ _. IfSome (F.shown shelf.old).held (λ files. AreBytesIn (bytes_of files name.now) at (at + 4 * len))) }
    ensures shows { IfSome (F.shown shelf.old).held (λ files. Shows (bytes_of files name.now) window.new) }
    ensures only_reads { OnlyReads (F.shown shelf.old) (F.shown shelf.new) name.now (IsErrOf result IndexFault.Read) }
{
    for i in 0..len {
        let place = at + 4 * i as u64;
        let id = window.word(shelf, name, place)?;
        match fault_in_row(members, own, place, &ids[..i], id) {
            Some(fault) => return Err(fault),
            None => {}
        }
        ids[i] = id;
    }
    Ok(())
}

/// A row: its length, and then its ids. The marks are of any earlier rows.
pub(crate) fn read_row<F: Shelf>(
    shelf: &mut F,
    name: &str,
    window: &mut Window,
    members: Members,
    bound: u32,
    own: u32,
    at: u64,
    ids: &mut [u32],
    marks: &mut [u32; 4096],
) -> Result<usize, IndexFault>
    requires place { at + 65536 < 2 ^ 64 }
    requires bound { bound ≤ MAX_DEGREE }
    requires room { bound ≤ length ids.old }
    requires ascending { AreAscending members }
    requires shows { IfSome (F.shown shelf.old).held (λ files. Shows (bytes_of files name.now) window.old) }
    ensures row { IfSome (F.shown shelf.old).held (λ files. Gives (λ len. take len ids.new) result (row_at (holds members.entry) bound own (bytes_of files name.now) at)) }
    ensures len { IfOk result (λ len. len ≤ bound) }
    ensures is_row { IfOk result (λ len. IsRowIn (holds members.entry) bound own (take len ids.new)) }
    ensures bytes { IfOk result (λ len. IfSome (F.shown shelf.old).held (λ files. AreBytesIn (bytes_of files name.now) at (at + (4 + 4 * len)))) }
    ensures shows { IfSome (F.shown shelf.old).held (λ files. Shows (bytes_of files name.now) window.new) }
    ensures only_reads { OnlyReads (F.shown shelf.old) (F.shown shelf.new) name.now (IsErrOf result IndexFault.Read) }
{
    let len = window.word(shelf, name, at)?;
    if bound < len {
        return Err(IndexFault::Malformed {
            place: at,
            rule: IndexRule::Degree,
        });
    }
    if read_shown(window, members, own, at + 4, len as usize, ids, marks) {
        return Ok(len as usize);
    }
    read_ids(shelf, name, window, members, own, at + 4, len as usize, ids)?;
    Ok(len as usize)
}

/// The rows of a layer, one after another. Returns the place behind them.
pub(crate) fn read_rows<F: Shelf>(
    shelf: &mut F,
    name: &str,
    window: &mut Window,
    members: Members,
    bound: u32,
    at: u64,
    graph: &mut FlatGraph,
) -> Result<u64, IndexFault>
    requires place { at + 4294967296 < 2 ^ 64 }
    requires bound { bound ≤ MAX_DEGREE }
    requires width { graph.old.width ≡ bound }
    requires rows { length graph.old.rows ≡ length (owns members) }
    requires count { length (owns members) ≤ MAX_POINTS }
    requires ascending { AreAscending members }
    requires shows { IfSome (F.shown shelf.old).held (λ files. Shows (bytes_of files name.now) window.old) }
    ensures rows { IfSome (F.shown shelf.old).held (λ files. Gives (λ end. (graph.new.rows, end)) result (rows_at (holds members.entry) bound (bytes_of files name.now) (owns members.entry) at [])) }
    ensures sound { IfOk result (λ _. AreRows (holds members.entry) bound (owns members.entry) (length graph.new.rows) graph.new.rows) }
    ensures bytes { IfOk result (λ end. IfSome (F.shown shelf.old).held (λ files. AreBytesIn (bytes_of files name.now) at end)) }
    ensures shape { (graph.new.width ≡ bound) × (length graph.new.rows ≡ length (owns members.entry)) }
    ensures end { IfOk result (λ end. end ≤ at + 516 * length (owns members.entry)) }
    ensures shows { IfSome (F.shown shelf.old).held (λ files. Shows (bytes_of files name.now) window.new) }
    ensures only_reads { OnlyReads (F.shown shelf.old) (F.shown shelf.new) name.now (IsErrOf result IndexFault.Read) }
{
    let mut row = [0u32; MAX_DEGREE as usize];
    let mut marks = [0u32; 4096];
    let mut place = at;
    for i in 0..graph.count() {
        let own = members.at(i);
        let len = read_row(
            shelf, name, window, members, bound, own, place, &mut row, &mut marks,
        )?;
        graph.set_row(i, &row[..len]);
        place += 4 + 4 * len as u64;
    }
    Ok(place)
}

/// The rows of a layer, with the place behind them. Memory for them is taken once, and only if the file is long enough to
/// hold a word of each row.
pub(crate) fn read_graph<F: Shelf>(
    alloc: Global,
    shelf: &mut F,
    name: &str,
    window: &mut Window,
    members: Members,
    bound: u32,
    at: u64,
) -> Result<(FlatGraph, u64), IndexFault>
    requires place { at + 4294967296 < 2 ^ 64 }
    requires bound { (1 ≤ bound) × (bound ≤ MAX_DEGREE) }
    requires count { (1 ≤ count_in members) × (count_in members ≤ MAX_POINTS) }
    requires words { count_in members * (bound + 1) ≤ MAX_WORDS }
    requires ascending { AreAscending members }
    requires shows { IfSome (F.shown shelf.old).held (λ files. Shows (bytes_of files name.now) window.old) }
    ensures rows { IfSome (F.shown shelf.old).held (λ files. Gives (λ x. (x.0.rows, x.1)) result (rows_at (holds members.entry) bound (bytes_of files name.now) (owns members.entry) at [])) }
    ensures sound { IfOk result (λ x. AreRows (holds members.entry) bound (owns members.entry) (length x.0.rows) x.0.rows) }
    ensures bytes { IfOk result (λ x. IfSome (F.shown shelf.old).held (λ files. AreBytesIn (bytes_of files name.now) at x.1)) }
    ensures shape { IfOk result (λ x. (x.0.width ≡ bound) × (length x.0.rows ≡ count_in members.entry)) }
    ensures end { IfOk result (λ x. x.1 ≤ at + 516 * count_in members.entry) }
    ensures shows { IfSome (F.shown shelf.old).held (λ files. Shows (bytes_of files name.now) window.new) }
    ensures only_reads { OnlyReads (F.shown shelf.old) (F.shown shelf.new) name.now (IsErrOf result IndexFault.Read) }
{
    see_room(shelf, name, window, members, bound, at)?;
    let Ok(mut graph) = FlatGraph::new(alloc, members.count(), bound) else {
        return Err(IndexFault::NoMemory);
    };
    let end = read_rows(shelf, name, window, members, bound, at, &mut graph)?;
    Ok((graph, end))
}
