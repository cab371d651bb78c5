//! The whole build.
ghost use Rattle.std.specs.Prelude.{◌≡◌, ◌+◌, ◌-◌, ◌*◌, ◌<◌, ◌≤◌, IfOk, length};
ghost use Rattle.ann_defs.specs.declared.limits.TheConstants.{MAX_DEGREE, MAX_WORDS};
ghost use Rattle.graph_rows.specs.View.{contents};
ghost use Rattle.graph_rows.specs.WellFormed.{IsWellFormed};
ghost use Rattle.neighbour_lists.specs.Held.{BelongTo};
ghost use Rattle.nn_descent.specs.NndIndex.{start_of, planted, improved, nnd_index};

use crate::pruned_graph::search_graph;
use crate::settings::NndSettings;
use ann_defs::{Kind, StartKind};
use ann_shelf::{Gate, NoMemory};
use bin_files::Points;
use graph_rows::Index;
use neighbour_lists::Lists;
use pivot_trees::Tree;
use seeded_order::medoid;
use std::alloc::Global;
use std::thread::Threads;
use steal_pool::Rounds;

// Where searches start.
fn start_at(alloc: Global, points: &Points, start: StartKind) -> Result<u32, NoMemory>
    ensures { IfOk result (λ id. id ≡ start_of points.now.vectors start) }
{
    match start {
        StartKind::First => Ok(0),
        StartKind::Medoid => medoid(alloc, points),
    }
}

// Empty lists with the leaves of all trees.
fn planted_lists<R: Threads + Sync, P: Rounds, G: Gate + Sync>(
    rt: &R,
    alloc: Global,
    points: &Points,
    settings: NndSettings,
    pool: &mut P,
    gate: &G,
) -> Result<Lists, NoMemory>
    requires list { (1 ≤ settings.list) × (settings.list ≤ MAX_DEGREE) }
    requires leaf { 2 ≤ settings.leaf }
    requires lists { length points.now.vectors * (settings.list + 1) ≤ MAX_WORDS }
    ensures rows { IfOk result (λ l. l.rows ≡ planted points.now.vectors settings settings.trees) }
    ensures list { IfOk result (λ l. l.list ≡ settings.list) }
    ensures belong { IfOk result (λ l. BelongTo points.now.vectors l) }
    ensures workers { P.count pool.new ≡ P.count pool.old }
{
    let mut lists = Lists::empty(alloc, points, settings.list)?;
    for t in 0..settings.trees {
        let tree = Tree::grow(
            rt,
            alloc,
            points,
            t,
            settings.seed,
            settings.leaf,
            pool,
            gate,
        )?;
        lists.add_leaves(rt, alloc, points, &tree, pool, gate)?;
    }
    Ok(lists)
}

// Rounds over the lists, at most so many, up to the first that changes at most `floor` entries.
fn improve<R: Threads + Sync, P: Rounds, G: Gate + Sync>(
    rt: &R,
    alloc: Global,
    points: &Points,
    lists: &mut Lists,
    rounds: u32,
    floor: u64,
    pool: &mut P,
    gate: &G,
) -> Result<(), NoMemory>
    requires { BelongTo points.now.vectors lists.old }
    ensures rows { IfOk result (λ _. lists.new.rows ≡ improved points.now.vectors lists.old.list floor rounds lists.old.rows) }
    ensures belong { BelongTo points.now.vectors lists.new }
    ensures workers { P.count pool.new ≡ P.count pool.old }
{
    for _round in 0..rounds {
        let changed = lists.round(rt, alloc, points, pool, gate)?;
        if changed <= floor {
            return Ok(());
        }
    }
    Ok(())
}

/// The index of points: empty lists take the leaves of each tree in turn, at most `rounds` rounds follow, up to the first that
/// changes at most `floor` entries, and the search graph of the lists is the index.
///
/// Runs on any pool, and its index depends on points and settings alone. Fails only with `NoMemory`, which leaves nothing. Memory: while
/// a round computes, nine rows of `4 * n * (list + 1)` bytes, twice twelve bytes for each id of the lists; and the rows of the index.
pub fn build_nnd<R: Threads + Sync, P: Rounds, G: Gate + Sync>(
    rt: &R,
    alloc: Global,
    points: &Points,
    settings: NndSettings,
    pool: &mut P,
    gate: &G,
) -> Result<Index, NoMemory>
    requires degree { (1 ≤ settings.degree) × (settings.degree ≤ MAX_DEGREE) }
    requires list { (1 ≤ settings.list) × (settings.list ≤ MAX_DEGREE) }
    requires leaf { 2 ≤ settings.leaf }
    requires lists { length points.now.vectors * (settings.list + 1) ≤ MAX_WORDS }
    requires rows { length points.now.vectors * (settings.degree + 1) ≤ MAX_WORDS }
    ensures index { IfOk result (λ i. contents i ≡ nnd_index points.now.vectors settings) }
    ensures well_formed { IfOk result (λ i. IsWellFormed (contents i)) }
    ensures workers { P.count pool.new ≡ P.count pool.old }
{
    let start = start_at(alloc, points, settings.start)?;
    let mut lists = planted_lists(rt, alloc, points, settings, pool, gate)?;
    improve(
        rt,
        alloc,
        points,
        &mut lists,
        settings.rounds,
        settings.floor,
        pool,
        gate,
    )?;
    let base = search_graph(
        rt,
        alloc,
        points,
        &lists,
        settings.degree,
        settings.alpha,
        pool,
        gate,
    )?;
    Ok(Index {
        kind: Kind::Nnd,
        count: points.count(),
        dim: points.dim(),
        degree: settings.degree,
        start,
        base,
        upper: Vec::new(alloc),
        stamp: None,
    })
}
