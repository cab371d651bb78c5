//! What calls cost, by count: the calls of a shelf for a file of a megabyte, and searches that pay for no point that they
//! don't see.
ghost use Rattle.std.specs.Prelude.{◌≤◌, IfOk};
ghost use Rattle.ann_defs.specs.Graph.{AreGoodRows};

use crate::searching::search_line;
use ann_defs::{Element, MAX_POINTS};
use ann_shelf::{MemShelf, NoMemory};
use beam_search::{Scratch, found};
use bin_files::{Points, read_points_as, write_points};
use graph_files::{read_index, write_index};
use graph_rows::FlatGraph;
use std::alloc::Global;
use std::test::Fail;

// The most calls for a megabyte, either way: pieces of 4 KiB and some more.
const FEW: u64 = 300;

// The header of an index of kind 1 with 262,144 points of dimension 1, degree 2, start 0 and one layer.
const HEADER: [u8; 32] = [
    80, 65, 78, 78, 1, 0, 0, 0, 1, 0, 0, 0, 0, 0, 4, 0, 1, 0, 0, 0, 2, 0, 0, 0, 0, 0, 0, 0, 1, 0,
    0, 0,
];

// Whether it takes few calls to write these points and few to read them again, and they are the same then.
fn takes_few_calls(
    alloc: Global,
    shelf: &mut MemShelf,
    points: &Points,
    element: Element,
) -> Result<bool, Fail> {
    write_points(shelf, "a", points)?;
    let written = shelf.calls();
    let again = read_points_as(alloc, shelf, "a", element)?;
    let read = shelf.calls().saturating_sub(written);
    Ok(again.is_same(points) && written <= FEW && read <= FEW)
}

// Whether it does so for a megabyte of them.
fn megabyte_takes_few_calls(alloc: Global, element: Element) -> Result<bool, Fail> {
    let points = Points::of(element, 256, vec![in alloc; 7u8; 1_048_576]?);
    takes_few_calls(alloc, &mut MemShelf::new(alloc), &points, element)
}

#[test]
fn a_megabyte_of_points_takes_few_calls(rt: HostRuntime) -> Result<(), Fail> {
    for element in [Element::U8, Element::I8] {
        assert!(rt; megabyte_takes_few_calls(rt.alloc(), element)?);
    }
    Ok(())
}

// An index file with a megabyte of rows, each of no ids.
fn empty_rows(alloc: Global) -> Result<Vec<u8>, NoMemory> {
    let mut text = HEADER.to_vec(alloc)?;
    let rows = vec![in alloc; 0u8; 1_048_576]?;
    text.extend_from_slice(rows.as_slice())?;
    Ok(text)
}

// How many calls it takes to read the index of one file, and to write it to another.
fn calls_of_a_copy(alloc: Global, shelf: &mut MemShelf) -> Result<(u64, u64), Fail> {
    let index = read_index(alloc, shelf, "a")?;
    let read = shelf.calls();
    write_index(shelf, "b", &index)?;
    Ok((read, shelf.calls().saturating_sub(read)))
}

// Whether an index file is copied by few calls, byte for byte.
fn is_copied_by_few_calls(alloc: Global, text: &[u8]) -> Result<bool, Fail> {
    let mut shelf = MemShelf::new(alloc);
    shelf.put("a", text)?;
    let (read, written) = calls_of_a_copy(alloc, &mut shelf)?;
    Ok(read <= FEW && written <= FEW && shelf.bytes("b") == Some(text))
}

#[test]
fn a_megabyte_of_rows_takes_few_calls(rt: HostRuntime) -> Result<(), Fail> {
    let text = empty_rows(rt.alloc())?;
    assert!(rt; is_copied_by_few_calls(rt.alloc(), text.as_slice())?);
    Ok(())
}

// A graph of so many points with no edges.
fn no_edges(alloc: Global, count: u32) -> Result<FlatGraph, NoMemory>
    requires { (1 ≤ count) × (count ≤ MAX_POINTS) }
    ensures { IfOk result (λ g. AreGoodRows count 2 g.rows) }
{
    FlatGraph::new(alloc, count, 2)
}

// How many ids the last of so many searches of 4,194,304 points finds, where none has an edge.
fn search_often(alloc: Global, times: u32) -> Result<usize, NoMemory> {
    let points = Points::from_bytes(1, vec![in alloc; 0u8; MAX_POINTS as usize]?);
    let graph = no_edges(alloc, MAX_POINTS)?;
    let mut scratch = Scratch::new(alloc, MAX_POINTS, 4)?;
    if points.count() == MAX_POINTS && points.dim() == 1 {
        for _ in 0..times {
            search_line(&points, &graph, 9, 4, &mut scratch);
        }
    }
    Ok(found(&scratch).len())
}

// A search that cleared a mark of each point would take minutes here, and a test has one.
#[test]
fn searches_clear_no_marks(rt: HostRuntime) -> Result<(), Fail> {
    assert!(rt; search_often(rt.alloc(), 500_000)? == 1);
    Ok(())
}
