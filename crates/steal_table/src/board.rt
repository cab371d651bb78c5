//! A round's shared table, and the passes to it.
ghost use Rattle.std.specs.Prelude.{◌≡◌, ◌≢◌, ◌+◌, ◌<◌, ◌≤◌, ℕ, None, IsSome, MatchOption, length, [], slice_index_or};
ghost use Rattle.std.specs.Borrow.{sem};
ghost use Rattle.steal_table.specs.declared.view.Entry.{Entry};
ghost use Rattle.steal_table.specs.Rule.{HasEntry, taken_over, one_more, next_worker, caller_first};
ghost use Rattle.steal_table.specs.Steps.{NoEntry, HasEntryOf, AllBack};
ghost use Rattle.steal_table.specs.Opened.{HasRoom};
ghost use Rattle.steal_table.specs.Lending.{LendsBlock};
ghost use Rattle.steal_table.specs.Calls.{Claimed, AgreesWithEntries, AloneClaims, Finished};

use crate::blocks::Blocks;
use crate::close::empty_out;
use crate::report::Report;
use crate::rule::{Block, Claiming, Claims, Finishes, Looks, Returns, Seats};
use crate::view::{Size, View};
use ann_defs::MAX_WORKERS;
use atomic_table::{Seat, Table};
use std::alloc::Global;
use std::marker::Model;
use std::mem::replace;

/// What a claim found.
#[derive(Clone, Copy, Drop)]
pub enum Claim {
    /// The task was open. The pass holds it now.
    Mine,
    /// Another number holds the task.
    Held { by: u32 },
    /// The task is done, by this number.
    Done { by: u32 },
}

/// A round's shared table: a word and a block for each task. Threads may make its calls at the same time.
///
/// No call waits, and none takes memory. Of a pass each changes only what its clauses name.
#[derive(Drop)]
pub struct Board {
    table: Table<Block, View, Size, Claiming, Global>,
    size: Size,
    // where the blocks and the owners go when the round is closed
    blocks: Vec<Block>,
    owners: Vec<u32>,
}

impl Model for Board {
    ghost use Rattle.ann_defs.specs.declared.limits.TheConstants.{MAX_WORKERS};
    ghost use Rattle.std.specs.Prelude.{◌≡◌, ◌+◌, ◌≤◌};
    ghost use Rattle.steal_table.specs.Passes.{BoardId};
    ghost use Rattle.steal_table.specs.Opened.{HasRoom};

    ghost Value = { BoardId };

    ghost view = { λ b. record { table = b.table.shared.table_id; size = b.size } };

    ghost invariant = { λ b. (b.table.shared.key ≡ b.size) × (b.table.shared.table_id.words ≡ b.size.tasks + 1) × (b.table.shared.table_id.slots ≡ b.size.tasks) × (b.size.workers ≤ MAX_WORKERS)
        × HasRoom b.size.tasks b.blocks b.owners };
}

/// One number's right to claim tasks and to finish them, one after another.
///
/// The workers of a round have the numbers from 0 on, and the caller has the number of workers. A pass remembers the
/// task that it holds, an entry for each task that it finished (task, number, block), and what its last refused claim
/// found.
#[derive(Drop)]
pub struct Pass {
    seat: Seat<Block, View>,
    number: u32,
    task: Option<u32>,
    block: Block,
    of: Size,
    alloc: Global,
}

impl Model for Pass {
    ghost use Rattle.steal_table.specs.Passes.{PassState, Sound};

    ghost Value = { PassState };

    ghost view = { λ p. record { board = record { table = p.seat.table_id; size = p.of }; view = p.seat.me.0; block = p.block.items } };

    ghost invariant = { λ p. Sound p.of p.seat.me p.number p.task p.block.items };
}

impl Pass {
    /// The number of the pass.
    pub fn number(&self) -> u32
        ensures { result ≡ self.now.view.number }
    {
        self.number
    }

    /// The block of the held task, to be filled before `finish`.
    pub fn block(&mut self) -> &mut [u32]
        requires { IsSome self.old.view.held }
        ensures* writes_back { sem 𝓛 (LendsBlock self.entry result) }
        ensures value { result.now ≡ self.old.block }
        ensures len { length result.now ≡ self.old.board.size.width }
    {
        self.block.as_mut_slice()
    }
}

impl Board {
    /// Tries to take an open task: one atomic step on its word. The block comes with the task.
    pub fn claim(&self, pass: &mut Pass, task: u32) -> Claim
        requires board { pass.old.board ≡ self.now }
        requires free { pass.old.view.held ≡ None }
        requires task { task < self.now.size.tasks }
        ensures claimed { Claimed pass.old task result pass.new }
        ensures entries { AgreesWithEntries pass.old task result }
        ensures alone { AloneClaims pass.old task result }
    {
        let words = &self.table.shared;
        let mine = 2 * u64::from(pass.number) + 1;
        let found = words.compare_exchange::<Claims>(&mut pass.seat, task as usize + 1, 0, mine);
        if found == 0 {
            let empty = Vec::new(pass.alloc);
            pass.block = words.exchange(&mut pass.seat, task as usize, empty);
            pass.task = Some(task);
            return Claim::Mine;
        }
        let by = ((found - 1) / 2) as u32;
        if found % 2 == 1 {
            Claim::Held { by }
        } else {
            Claim::Done { by }
        }
    }

    /// Gives the block of the held task back: one atomic step on the task's word. The task is then done for good.
    pub fn finish(&self, pass: &mut Pass)
        requires board { pass.old.board ≡ self.now }
        requires holds { IsSome pass.old.view.held }
        ensures { Finished pass.old pass.new }
    {
        let Some(task) = pass.task else {
            unreachable!()
        };
        let words = &self.table.shared;
        let done = 2 * u64::from(pass.number) + 2;
        let block = replace(&mut pass.block, Vec::new(pass.alloc));
        let _empty = words.exchange(&mut pass.seat, task as usize, block);
        words.swap::<Finishes>(&mut pass.seat, task as usize + 1, done);
        pass.task = None;
    }

    /// The caller takes over the entries of a worker's pass, and its number has come back.
    pub fn join(&self, own: &mut Pass, pass: Pass)
        requires own { (own.old.board ≡ self.now) × (own.old.view.number ≡ self.now.size.workers) }
        requires pass { (pass.board ≡ self.now) × (pass.view.held ≡ None) }
        ensures joined { own.new ≡ record own.old { view = taken_over own.old.view pass.view } }
        ensures apart { (e f : Entry) → HasEntry own.old.view e → HasEntry pass.view f → e.task ≢ f.task }
    {
        let words = &self.table.shared;
        let Pass { seat, .. } = pass;
        words.join_seat::<Returns>(&mut own.seat, seat);
        words.load::<Looks>(&mut own.seat, 0);
    }

    /// Who has done the task, once all numbers are back: one atomic load of its word.
    pub fn look(&self, own: &mut Pass, task: u32) -> Option<u32>
        requires own { (own.old.board ≡ self.now) × (own.old.view.held ≡ None) × AllBack own.old.view }
        requires task { task < self.now.size.tasks }
        ensures same { own.new ≡ own.old }
        ensures answer { MatchOption result (NoEntry own.old.view task) (λ by. (e : Entry) × HasEntry own.old.view e × (e.task ≡ task) × (e.worker ≡ by)) }
    {
        let found = self
            .table
            .shared
            .load::<Looks>(&mut own.seat, task as usize + 1);
        if found == 0 {
            return None;
        }
        Some((found / 2 - 1) as u32)
    }

    // A pass for one worker more.
    pub(crate) fn split(&self, own: &mut Pass, number: u32) -> Pass
        requires board { own.old.board ≡ self.now }
        requires caller { own.old.view.number ≡ self.now.size.workers }
        requires room { (own.old.view.made ≡ number) × (number < self.now.size.workers) }
        ensures own { own.new ≡ record own.old { view = one_more own.old.view } }
        ensures result { result ≡ record { board = self.now; view = next_worker own.old.view; block = [] } }
    {
        let alloc = own.alloc;
        let seat = self.table.shared.split_seat::<Seats>(&mut own.seat);
        Pass {
            seat,
            number,
            task: None,
            block: Vec::new(alloc),
            of: self.size,
            alloc,
        }
    }

    // The board of a new table, and the caller's pass.
    pub(crate) fn of(
        table: Table<Block, View, Size, Claiming, Global>,
        seat: Seat<Block, View>,
        size: Size,
        alloc: Global,
        blocks: Vec<Block>,
        owners: Vec<u32>,
    ) -> (Board, Pass)
        requires table { (table.shared.key ≡ size) × (table.shared.table_id.words ≡ size.tasks + 1) × (table.shared.table_id.slots ≡ size.tasks) × (size.workers ≤ MAX_WORKERS) }
        requires seat { (seat.table_id ≡ table.shared.table_id) × (seat.me ≡ (caller_first size, [])) }
        requires room { HasRoom size.tasks blocks owners }
        ensures board { result.0.size ≡ size }
        ensures own { result.1 ≡ record { board = result.0; view = caller_first size; block = [] } }
    {
        let own = Pass {
            seat,
            number: size.workers,
            task: None,
            block: Vec::new(alloc),
            of: size,
            alloc,
        };
        let board = Board {
            table,
            size,
            blocks,
            owners,
        };
        (board, own)
    }

    /// Ends a round: its blocks, and who ran each task. The caller's pass has an entry of every task.
    pub fn close(self, own: Pass) -> (Blocks, Report)
        requires own { own.board ≡ self }
        requires all { (t : ℕ) → t < self.size.tasks → HasEntryOf own.view t }
        ensures count { (length result.0 ≡ self.size.tasks) × (length result.1.owners ≡ self.size.tasks) × (result.1.workers ≡ self.size.workers) }
        ensures blocks { (e : Entry) → HasEntry own.view e → slice_index_or result.0 e.task [] ≡ e.block }
        ensures owners { (e : Entry) → HasEntry own.view e → slice_index_or result.1.owners e.task 0 ≡ e.worker }
    {
        let Board {
            table,
            size,
            blocks,
            owners,
        } = self;
        let Pass { seat, .. } = own;
        let (blocks, owners) = empty_out(table.close_with(seat), size.tasks, blocks, owners);
        (Blocks::of(blocks), Report::of(owners, size.workers))
    }
}
