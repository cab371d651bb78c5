//! New rows of some points, as tasks.
ghost use Rattle.std.specs.Prelude.{◌≡◌, ℕ, ◌+◌, ◌<◌, ◌≤◌, IfOk, List, length, take};
ghost use Rattle.std.specs.List.{All};
ghost use Rattle.ann_defs.specs.declared.limits.TheConstants.{MAX_DEGREE};
ghost use Rattle.steal_pool.specs.Work.{AllServe};
ghost use Rattle.neighbour_lists.specs.WrittenRows.{row_blocks, with_rows};

use ann_shelf::{Gate, NoMemory};
use batch_insert::{row_of, seal};
use graph_rows::FlatGraph;
use std::alloc::Global;
use std::thread::Threads;
use steal_pool::{Blocks, LEAST_SEARCHES, Post, Rounds, Work};

// How many points have their new rows in one round.
const MAX_TASKS: usize = 4096;

/// How the new row of a point comes about. Workers share it; it takes no memory.
pub trait RowRule: Sync {
    /// What a worker needs to write rows, one after another.
    type Scratch: Send;

    // how many points there are
    ghost count: { Self → ℕ };

    // the greatest length of a row
    ghost most: { Self → ℕ };

    // the new row of a point
    ghost row_of: { Self → ℕ → List ℕ };

    // which scratches serve
    ghost serves: { Self → Self.Scratch → Type 0 };

    /// The greatest length of a row.
    fn degree(&self) -> u32
        ensures { result ≡ most self.now };

    /// Writes the new row of point `v` to the front of `out`, and returns how many ids it has.
    fn write(&self, scratch: &mut Self::Scratch, v: u32, out: &mut [u32]) -> usize
        requires v { v < count self.now }
        requires scratch { serves self.now scratch.old }
        requires out { length out.old ≡ most self.now }
        ensures row { take result out.new ≡ row_of self.now v }
        ensures bound { result ≤ most self.now }
        ensures scratch { serves self.now scratch.new };

    // a new row isn't too long
    ghost short: { (r : Self) (v : ℕ) → v < count r → length (row_of r v) ≤ most r };
}

/// A task for each of at most 4,096 points: its new row.
#[derive(Drop)]
struct RowTasks<'a, L: RowRule> {
    rule: &'a L,
    ids: &'a [u32],
    ghost inside: { All (λ v. v < L.count rule.now) ids.now },
    ghost few: { length ids.now ≤ 4096 },
    ghost narrow: { L.most rule.now ≤ MAX_DEGREE },
}

impl<'a, L: RowRule> Work for RowTasks<'a, L> {
    type Scratch = L::Scratch;

    ghost want = { λ w. row_blocks (L.row_of w.rule.now) (L.most w.rule.now) w.ids.now };

    ghost wide = { λ w. L.most w.rule.now + 1 };

    ghost serves = { λ w s. L.serves w.rule.now s };

    fn tasks(&self) -> u32 {
        self.ids.len() as u32
    }

    fn width(&self) -> u32 {
        self.rule.degree() + 1
    }

    fn least(&self) -> u32 {
        LEAST_SEARCHES
    }

    fn run(&self, scratch: &mut L::Scratch, task: u32, out: &mut [u32]) {
        let len = self
            .rule
            .write(scratch, self.ids[task as usize], &mut out[1..]);
        seal(out, len);
    }
}

impl<'a, L: RowRule> RowTasks<'a, L> {
    // Sets the new rows of the points, which stand in the blocks of the tasks.
    fn put(&self, blocks: &Blocks, rows: &mut FlatGraph)
        requires blocks { blocks.now ≡ row_blocks (L.row_of self.now.rule.now) (L.most self.now.rule.now) self.now.ids.now }
        requires count { length rows.old.rows ≡ L.count self.now.rule.now }
        requires width { rows.old.width ≡ L.most self.now.rule.now }
        ensures rows { rows.new.rows ≡ with_rows (L.row_of self.now.rule.now) self.now.ids.now rows.old.rows }
        ensures width { rows.new.width ≡ rows.old.width }
    {
        for i in 0..self.ids.len() {
            rows.set_row(self.ids[i], row_of(blocks.get(i as u32)));
        }
    }
}

/// Puts the new rows of some points, which ascend or not, into the rows: in rounds of at most 4,096 points, with a task for each.
///
/// The rule must not read the rows that are put. Fails only with `NoMemory`, which may leave some of the new rows in place; the posts still
/// serve. Memory: the blocks of a round, `4 * (most + 1)` bytes a task.
pub fn put_rows<R: Threads + Sync, P: Rounds, L: RowRule, G: Gate + Sync>(
    rt: &R,
    alloc: Global,
    pool: &mut P,
    rule: &L,
    ids: &[u32],
    rows: &mut FlatGraph,
    posts: &mut [Post<L::Scratch>],
    gate: &G,
) -> Result<(), NoMemory>
    requires inside { All (λ v. v < L.count rule.now) ids.now }
    requires count { length rows.old.rows ≡ L.count rule.now }
    requires width { rows.old.width ≡ L.most rule.now }
    requires narrow { L.most rule.now ≤ MAX_DEGREE }
    requires posts { length posts.old ≡ P.count pool.old }
    requires serve { AllServe (L.serves rule.now) posts.old }
    ensures rows { IfOk result (λ _. rows.new.rows ≡ with_rows (L.row_of rule.now) ids.now rows.old.rows) }
    ensures width { rows.new.width ≡ rows.old.width }
    ensures serve { AllServe (L.serves rule.now) posts.new }
    ensures workers { P.count pool.new ≡ P.count pool.old }
{
    let mut from = 0;
    while from < ids.len() {
        let to = (from + MAX_TASKS).min(ids.len());
        let work = RowTasks {
            rule,
            ids: &ids[from..to],
        };
        let blocks = pool.run_round(rt, alloc, &work, posts, gate)?;
        work.put(&blocks, rows);
        from = to;
    }
    Ok(())
}
