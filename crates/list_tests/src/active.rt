//! Rounds compute active points alone: the tasks that begin are counted, and the lists compared with those from scratch.
ghost use Rattle.std.specs.Prelude.{◌≡◌, ◌≤◌, IfOk, length};
ghost use Rattle.neighbour_lists.specs.Held.{BelongTo};

use crate::line::{line, planted};
use crate::plain::{Seen, active, arounds, changed, next_rows, rows_of};
use ann_shelf::{FreeGate, Gate, NoMemory};
use bin_files::Points;
use neighbour_lists::Lists;
use pivot_trees::Tree;
use seeded_order::made_points;
use std::alloc::Global;
use std::process::Abort;
use std::sync::atomic::{AtomicU64, Ordering};
use std::test::Fail;
use std::thread::Threads;
use steal_pool::SerialRounds;

// How many points are made.
const POINTS: u32 = 2000;

// How long lists are.
const LIST: u32 = 4;

// A gate that counts the tasks that begin.
#[derive(Drop)]
struct Counting {
    tasks: AtomicU64,
}

impl Counting {
    fn new() -> Counting {
        Counting {
            tasks: AtomicU64::new(0),
        }
    }

    fn tasks(&self) -> u64 {
        self.tasks.load(Ordering::SeqCst)
    }
}

impl Gate for Counting {
    fn task(&self, _worker: u32, _task: u32) {
        self.tasks.fetch_add(1, Ordering::SeqCst);
    }

    fn batch(&self, _v: u32) {}

    fn answer(&self, _query: u32) {}
}

// Lists of made points with the leaves of the first trees of a seed.
fn grown<R: Threads + Sync>(
    rt: &R,
    alloc: Global,
    points: &Points,
    seed: u64,
    trees: u32,
) -> Result<Lists, NoMemory>
    requires { length points.now.vectors ≤ 2000 }
    ensures { IfOk result (λ l. BelongTo points.now.vectors l) }
{
    let mut pool = SerialRounds::new();
    let mut lists = Lists::empty(alloc, points, LIST)?;
    for t in 0..trees {
        let tree = Tree::grow(rt, alloc, points, t, seed, 8, &mut pool, &FreeGate)?;
        lists.add_leaves(rt, alloc, points, &tree, &mut pool, &FreeGate)?;
    }
    Ok(lists)
}

// A round over lists: how many entries it changes, and how many tasks it begins.
fn counted<R: Threads + Sync>(
    rt: &R,
    alloc: Global,
    points: &Points,
    lists: &mut Lists,
) -> Result<(u64, u64), NoMemory>
    requires { BelongTo points.now.vectors lists.old }
    ensures { BelongTo points.now.vectors lists.new }
{
    let gate = Counting::new();
    let changed = lists.round(rt, alloc, points, &mut SerialRounds::new(), &gate)?;
    Ok((changed, gate.tasks()))
}

// Ten rounds over lists, each compared with the one from scratch. Returns how many tasks each began.
fn tasks_of_rounds<R: Threads + Sync + Abort>(
    rt: &R,
    alloc: Global,
    points: &Points,
    lists: &mut Lists,
) -> Result<[u64; 10], NoMemory>
    requires { BelongTo points.now.vectors lists.old }
{
    let list = LIST as usize;
    let mut tasks = [0u64; 10];
    let mut rows = rows_of(alloc, lists)?;
    let mut around = arounds(alloc, points, &rows, list)?;
    let mut due = u64::from(points.count());
    for r in 0..10usize {
        let (count, begun) = counted(rt, alloc, points, lists)?;
        let new = rows_of(alloc, lists)?;
        tasks[r] = due;
        assert!(rt; begun == due && count == changed(&rows, &new));
        if due == 0 {
            assert!(rt; new.as_slice() == rows.as_slice());
            continue;
        }
        let scratch = next_rows(alloc, points, &rows, &around, list)?;
        assert!(rt; new.as_slice() == scratch.as_slice());
        let new_around = arounds(alloc, points, &new, list)?;
        due = active(
            Seen {
                rows: &rows,
                arounds: &around,
            },
            Seen {
                rows: &new,
                arounds: &new_around,
            },
        );
        rows = new;
        around = new_around;
    }
    Ok(tasks)
}

// Whether a round of the planted lists begins a task for each point, and a second none.
fn settles<R: Threads + Sync>(rt: &R, alloc: Global, points: &Points) -> Result<bool, NoMemory>
    requires { length points.now.vectors ≡ 4 }
{
    let mut lists = planted(rt, alloc, points, &mut SerialRounds::new())?;
    let first = counted(rt, alloc, points, &mut lists)?;
    let second = counted(rt, alloc, points, &mut lists)?;
    Ok(first == (0, 4) && second == (0, 0))
}

#[test]
fn a_round_after_one_that_changed_nothing_begins_no_task(rt: HostRuntime) -> Result<(), Fail> {
    let points = line(rt.alloc())?;
    assert!(rt; settles(&rt, rt.alloc(), &points)?);
    Ok(())
}

// How many tasks ten rounds begin over lists of so many trees of a seed. Each is compared with the one from scratch.
fn tasks_of<R: Threads + Sync + Abort>(
    rt: &R,
    alloc: Global,
    seed: u64,
    trees: u32,
) -> Result<[u64; 10], NoMemory> {
    let points = made_points(alloc, POINTS, 2, seed, 0)?;
    assert!(rt; points.count() == POINTS);
    let mut lists = grown(rt, alloc, &points, seed, trees)?;
    tasks_of_rounds(rt, alloc, &points, &mut lists)
}

// Rounds over lists of two trees compute the active points, for some seeds.
fn assert_seeds<R: Threads + Sync + Abort>(
    rt: &R,
    alloc: Global,
    seeds: &[u64],
) -> Result<(), NoMemory> {
    for seed in seeds {
        let tasks = tasks_of(rt, alloc, *seed, 2)?;
        // Counted by a program that follows the definitions step by step.
        if *seed == 1 {
            assert!(rt; tasks == [2000, 1518, 779, 383, 117, 34, 10, 0, 0, 0]);
        }
    }
    Ok(())
}

#[test]
fn rounds_compute_the_active_points_of_seeds_1_and_2(rt: HostRuntime) -> Result<(), Fail> {
    Ok(assert_seeds(&rt, rt.alloc(), &[1, 2])?)
}

#[test]
fn rounds_compute_the_active_points_of_seeds_3_and_4(rt: HostRuntime) -> Result<(), Fail> {
    Ok(assert_seeds(&rt, rt.alloc(), &[3, 4])?)
}

#[test]
fn rounds_compute_the_active_points_of_seeds_5_and_6(rt: HostRuntime) -> Result<(), Fail> {
    Ok(assert_seeds(&rt, rt.alloc(), &[5, 6])?)
}

#[test]
fn rounds_compute_the_active_points_of_seeds_7_and_8(rt: HostRuntime) -> Result<(), Fail> {
    Ok(assert_seeds(&rt, rt.alloc(), &[7, 8])?)
}

#[test]
fn rounds_compute_the_active_points_of_seeds_9_and_10(rt: HostRuntime) -> Result<(), Fail> {
    Ok(assert_seeds(&rt, rt.alloc(), &[9, 10])?)
}

// The leaves of one tree part the points, so no list leaves its leaf.
#[test]
fn lists_of_one_tree_are_settled_after_one_round(rt: HostRuntime) -> Result<(), Fail> {
    let tasks = tasks_of(&rt, rt.alloc(), 1, 1)?;
    assert!(rt; tasks == [2000, 0, 0, 0, 0, 0, 0, 0, 0, 0]);
    Ok(())
}
