//! Searches of a line of four points, beside a plain body that does each step of the definition.
ghost use Rattle.std.specs.Prelude.{◌≡◌, ◌<◌, ◌≤◌, length};
ghost use Rattle.ann_defs.specs.Distance.{dim_of};
ghost use Rattle.ann_defs.specs.Graph.{AreGoodRows};
ghost use Rattle.beam_search.specs.Serving.{Serves};

use crate::line::{line, line_graph, near};
use ann_defs::Near;
use ann_shelf::NoMemory;
use beam_search::{Scratch, candidates, found, room, search, visited};
use bin_files::Points;
use graph_rows::{FlatGraph, Rows};
use near_lists::{near_to, touch};
use std::alloc::Global;
use std::test::Fail;

#[test]
fn a_new_scratch_has_nothing_found(rt: HostRuntime) -> Result<(), Fail> {
    let scratch = Scratch::new(rt.alloc(), 4, 4)?;
    assert!(rt; found(&scratch).len() == 0);
    assert!(rt; visited(&scratch).len() == 0);
    Ok(())
}

// Searches the line from 0.
pub(crate) fn search_line(
    points: &Points,
    graph: &FlatGraph,
    query: u8,
    beam: u32,
    scratch: &mut Scratch,
)
    requires good { AreGoodRows (length points.now.vectors) 2 graph.now.rows }
    requires some { 1 ≤ length points.now.vectors }
    requires dim { dim_of points.now.vectors ≡ 1 }
    requires serves { Serves (length points.now.vectors) beam scratch.old }
    ensures count { scratch.new.count ≡ scratch.old.count }
    ensures beam { scratch.new.beam ≡ scratch.old.beam }
{
    search(points, graph, &[0], &[query], beam, scratch);
}

// A scratch after two searches of the line, of which the first has the greatest beam.
fn searched_in(
    alloc: Global,
    points: &Points,
    graph: &FlatGraph,
    first: u8,
    query: u8,
    beam: u32,
) -> Result<Scratch, NoMemory>
    requires count { length points.now.vectors ≡ 4 }
    requires dim { dim_of points.now.vectors ≡ 1 }
    requires good { AreGoodRows 4 2 graph.now.rows }
    requires beam { beam ≤ 4 }
{
    let mut scratch = Scratch::new(alloc, 4, 4)?;
    search_line(points, graph, first, 4, &mut scratch);
    search_line(points, graph, query, beam, &mut scratch);
    Ok(scratch)
}

// The same of the line with its graph.
fn searched(alloc: Global, first: u8, query: u8, beam: u32) -> Result<Scratch, NoMemory>
    requires { beam ≤ 4 }
{
    let points = line(alloc)?;
    let graph = line_graph(alloc)?;
    searched_in(alloc, &points, &graph, first, query, beam)
}

// Whether a search after another finds and visits these.
fn is_searched(
    alloc: Global,
    query: u8,
    beam: u32,
    nearest: &[Near],
    walk: &[Near],
) -> Result<bool, NoMemory>
    requires { beam ≤ 4 }
{
    let scratch = searched(alloc, 3, query, beam)?;
    Ok(found(&scratch) == nearest && visited(&scratch) == walk)
}

#[test]
fn the_nearest_are_found_along_the_line(rt: HostRuntime) {
    let all = [near(4, 1), near(64, 2), near(144, 0)];
    let walk = [near(144, 0), near(4, 1), near(64, 2)];
    assert!(rt; is_searched(rt.alloc(), 12, 4, &all, &walk) == Ok(true));
}

#[test]
fn a_beam_of_one_finds_one(rt: HostRuntime) {
    let walk = [near(144, 0), near(4, 1)];
    assert!(rt; is_searched(rt.alloc(), 12, 1, &[near(4, 1)], &walk) == Ok(true));
}

// The ids with their squared distances join the list in order, each once, and the nearest stay.
fn join(
    points: &Points,
    query: &[u8],
    ids: &[u32],
    beam: usize,
    list: &mut Vec<Near>,
) -> Result<(), NoMemory> {
    for id in ids {
        if *id < points.count() && query.len() == points.dim() as usize {
            list.push(near_to(points, query, *id))?;
        }
    }
    list.sort_unstable();
    list.dedup();
    list.truncate(beam);
    Ok(())
}

// The first of the list that isn't visited.
fn first_left(list: &[Near], visited: &[Near]) -> Option<Near> {
    for x in list {
        if !visited.iter().any(|y| y.id == x.id) {
            return Some(*x);
        }
    }
    None
}

// Visits the nearest that was found and not visited, while there is one.
fn walk_on(
    points: &Points,
    graph: &FlatGraph,
    query: &[u8],
    beam: usize,
    list: &mut Vec<Near>,
    walk: &mut Vec<Near>,
) -> Result<(), NoMemory> {
    for _ in 0..points.count() {
        let Some(p) = first_left(list, walk) else {
            break;
        };
        walk.push(p)?;
        if graph.holds(p.id) {
            join(points, query, graph.row(p.id), beam, list)?;
        }
    }
    Ok(())
}

// What a search of the line from 0 finds and visits.
fn plain(
    alloc: Global,
    points: &Points,
    query: &[u8],
    beam: usize,
) -> Result<(Vec<Near>, Vec<Near>), NoMemory> {
    let graph = line_graph(alloc)?;
    let mut list = Vec::new(alloc);
    let mut walk = Vec::new(alloc);
    join(points, query, &[0], beam, &mut list)?;
    walk_on(points, &graph, query, beam, &mut list, &mut walk)?;
    Ok((list, walk))
}

// Whether a search after another in one scratch finds and visits what the plain one does.
fn is_as_plain(alloc: Global, query: u8, beam: u32) -> Result<bool, NoMemory>
    requires { beam ≤ 4 }
{
    let scratch = searched(alloc, 255 - query, query, beam)?;
    let points = line(alloc)?;
    let (list, walk) = plain(alloc, &points, &[query], beam as usize)?;
    Ok(found(&scratch) == list.as_slice() && visited(&scratch) == walk.as_slice())
}

#[test]
fn a_search_is_as_the_plain_one(rt: HostRuntime) -> Result<(), Fail> {
    for query in 0..40u8 {
        for beam in 1..5u32 {
            assert!(rt; is_as_plain(rt.alloc(), query, beam)?);
        }
    }
    Ok(())
}

// The candidates of a point of the line with some ids, after a search for it. Then they are written over.
fn candidates_at(
    alloc: Global,
    points: &Points,
    graph: &FlatGraph,
    p: u32,
    scratch: &mut Scratch,
) -> Result<Vec<Near>, NoMemory>
    requires p { p < length points.now.vectors }
    requires four { length points.now.vectors ≡ 4 }
    requires good { AreGoodRows (length points.now.vectors) 2 graph.now.rows }
    requires serves { Serves (length points.now.vectors) 4 scratch.old }
{
    search(points, graph, &[0], points.at(p), 4, scratch);
    let nears = candidates(scratch, points, p, &[3, 1, 0]);
    nears.sort_unstable();
    let list = nears.to_vec(alloc)?;
    room(scratch)[0] = near(7, 7);
    Ok(list)
}

// Those of point 1, and what the scratch says of the search after they were written over.
fn candidates_of_one(alloc: Global) -> Result<(Vec<Near>, Vec<Near>), NoMemory> {
    let points = line(alloc)?;
    let graph = line_graph(alloc)?;
    let mut scratch = Scratch::new(alloc, 4, 4)?;
    let list = candidates_at(alloc, &points, &graph, 1, &mut scratch)?;
    Ok((list, visited(&scratch).to_vec(alloc)?))
}

#[test]
fn candidates_are_the_visited_and_the_row(rt: HostRuntime) -> Result<(), Fail> {
    let (list, walk) = candidates_of_one(rt.alloc())?;
    let all = [near(100, 0), near(100, 2), near(400, 3)];
    assert!(rt; list.as_slice() == all.as_slice());
    let line = [near(100, 0), near(0, 1), near(100, 2)];
    assert!(rt; walk.as_slice() == line.as_slice());
    Ok(())
}

// Some ids, after the first three of them were read ahead, where all points are so many.
fn read_ahead(alloc: Global, count: usize) -> Result<Option<[u32; 4]>, NoMemory>
    requires { (1 ≤ count) × (count ≤ 2048) }
{
    let points = Points::from_bytes(2048, vec![in alloc; 1u8; 2048 * count]?);
    let mut ids = [3u32, 599, 5, 9];
    if points.count() < 600 {
        return Ok(None);
    }
    touch(&points, &mut ids, 3);
    Ok(Some(ids))
}

#[test]
fn reading_ahead_of_many_points_leaves_the_ids(rt: HostRuntime) -> Result<(), Fail> {
    assert!(rt; read_ahead(rt.alloc(), 600)? == Some([3, 599, 5, 1]));
    Ok(())
}
