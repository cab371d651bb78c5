//! Lists of a line of four points, worked out by hand.
ghost use Rattle.std.specs.Prelude.{◌≡◌, ◌≤◌, IfOk, length};
ghost use Rattle.neighbour_lists.specs.Held.{BelongTo};

use ann_defs::{Alpha, Kind, StartKind};
use ann_shelf::{FreeGate, NoMemory};
use bin_files::Points;
use graph_rows::{FlatGraph, Index, Rows};
use neighbour_lists::Lists;
use nn_descent::{NndSettings, build_nnd, search_graph};
use pivot_trees::Tree;
use std::alloc::Global;
use std::thread::Threads;
use steal_pool::{RayonRounds, Rounds, SerialRounds, StealRounds};

// The points 0, 10, 20 and 30.
pub(crate) fn line(alloc: Global) -> Result<Points, NoMemory>
    ensures { IfOk result (λ p. length p.vectors ≡ 4) }
{
    Ok(Points::from_bytes(1, vec![in alloc; 0u8, 10, 20, 30]?))
}

// Lists of two ids with the leaf of a tree that has all points in it.
pub(crate) fn planted<R: Threads + Sync, P: Rounds>(
    rt: &R,
    alloc: Global,
    points: &Points,
    pool: &mut P,
) -> Result<Lists, NoMemory>
    requires { length points.now.vectors ≤ 2000 }
    ensures { IfOk result (λ l. BelongTo points.now.vectors l) }
{
    let tree = Tree::grow(rt, alloc, points, 0, 0, 64, pool, &FreeGate)?;
    let mut lists = Lists::empty(alloc, points, 2)?;
    lists.add_leaves(rt, alloc, points, &tree, pool, &FreeGate)?;
    Ok(lists)
}

// Whether these are the rows of a graph.
fn has_rows(graph: &FlatGraph, rows: &[&[u32]]) -> bool {
    if graph.count() as usize != rows.len() {
        return false;
    }
    for (id, row) in rows.iter().enumerate() {
        if graph.row(id as u32) != *row {
            return false;
        }
    }
    true
}

const LISTS: [&[u32]; 4] = [&[1, 2], &[0, 2], &[1, 3], &[2, 1]];

const ROWS: [&[u32]; 4] = [&[1], &[0, 2], &[1, 3], &[2]];

const EVEN: Alpha = Alpha { num: 1, den: 1 };

const SETTINGS: NndSettings = NndSettings {
    start: StartKind::First,
    seed: 0,
    degree: 2,
    alpha: EVEN,
    list: 2,
    trees: 1,
    leaf: 64,
    rounds: 1,
    floor: 0,
};

// Whether a round over a pool leaves the lists as they were worked out.
fn stays<R: Threads + Sync, P: Rounds>(
    rt: &R,
    alloc: Global,
    points: &Points,
    lists: &mut Lists,
    pool: &mut P,
) -> Result<bool, NoMemory>
    requires { BelongTo points.now.vectors lists.old }
    ensures { BelongTo points.now.vectors lists.new }
{
    let before = has_rows(lists.rows(), &LISTS);
    let changed = lists.round(rt, alloc, points, pool, &FreeGate)?;
    Ok(before && changed == 0 && has_rows(lists.rows(), &LISTS))
}

// Whether the search graph of lists over a pool is the one worked out.
fn leads<R: Threads + Sync, P: Rounds>(
    rt: &R,
    alloc: Global,
    points: &Points,
    lists: &Lists,
    pool: &mut P,
) -> Result<bool, NoMemory>
    requires four { length points.now.vectors ≡ 4 }
    requires belong { BelongTo points.now.vectors lists.now }
{
    let graph = search_graph(rt, alloc, points, lists, 2, EVEN, pool, &FreeGate)?;
    Ok(has_rows(&graph, &ROWS))
}

// Whether the lists of the line, a round of them and their search graph over a pool are those worked out.
fn lists_line<R: Threads + Sync, P: Rounds>(
    rt: &R,
    alloc: Global,
    points: &Points,
    pool: &mut P,
) -> Result<bool, NoMemory>
    requires { length points.now.vectors ≡ 4 }
{
    let mut lists = planted(rt, alloc, points, pool)?;
    let stays = stays(rt, alloc, points, &mut lists, pool)?;
    Ok(leads(rt, alloc, points, &lists, pool)? && stays)
}

// Whether this is the index of the line.
fn is_index(index: &Index) -> bool {
    let sizes = (index.count, index.dim, index.degree, index.start);
    matches!(index.kind, Kind::Nnd)
        && index.upper.is_empty()
        && sizes == (4, 1, 2, 0)
        && has_rows(&index.base, &ROWS)
}

// Whether these and the whole build over a pool are so.
fn is_line<R: Threads + Sync, P: Rounds>(
    rt: &R,
    alloc: Global,
    pool: &mut P,
) -> Result<bool, NoMemory> {
    let points = line(alloc)?;
    let lists = lists_line(rt, alloc, &points, pool)?;
    let index = build_nnd(rt, alloc, &points, SETTINGS, pool, &FreeGate)?;
    Ok(lists && is_index(&index))
}

#[test]
fn each_pool_gives_the_lists_and_the_rows_of_the_line(rt: HostRuntime) {
    let alloc = rt.alloc();
    assert!(rt; is_line(&rt, alloc, &mut SerialRounds::new()) == Ok(true));
    assert!(rt; is_line(&rt, alloc, &mut RayonRounds::new(2)) == Ok(true));
    assert!(rt; is_line(&rt, alloc, &mut StealRounds::new(3)) == Ok(true));
}
