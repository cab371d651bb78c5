//! A board before the first claim, with all memory that its round needs.
ghost use Rattle.std.specs.Prelude.{◌≡◌, ◌+◌, ◌<◌, ◌≤◌, [], IfOk};
ghost use Rattle.steal_table.specs.Opened.{AllFresh, caller_of};
ghost use Rattle.steal_table.specs.Rule.{caller_first};

use crate::blocks::blank_blocks;
use crate::board::{Board, Pass};
use crate::rule::{Block, Claiming};
use crate::view::{Size, View};
use ann_defs::MAX_WORKERS;
use ann_shelf::NoMemory;
use atomic_table::{Refused, Seat, Table};
use std::alloc::Global;

impl Board {
    /// A board with every task open, the caller's pass, and the passes of the workers in the order of their numbers.
    ///
    /// It takes memory for the words, the blocks, the seats, and what `close` gives. No other call takes any.
    pub fn open(
        alloc: Global,
        tasks: u32,
        width: u32,
        workers: u32,
    ) -> Result<(Board, Pass, Vec<Pass>), NoMemory>
        requires { workers ≤ MAX_WORKERS }
        ensures board { IfOk result (λ o. o.0.size ≡ record { tasks = tasks; width = width; workers = workers }) }
        ensures own { IfOk result (λ o. o.1 ≡ caller_of o.0 workers) }
        ensures passes { IfOk result (λ o. AllFresh o.0 workers o.2.items) }
    {
        let size = Size {
            tasks,
            width,
            workers,
        };
        let blocks = Vec::with_capacity(alloc, tasks as usize)?;
        let owners = Vec::with_capacity(alloc, tasks as usize)?;
        let (table, seat) = lay(alloc, size)?;
        let (board, mut own) = Board::of(table, seat, size, alloc, blocks, owners);
        let passes = seats(alloc, &board, &mut own, workers)?;
        Ok((board, own, passes))
    }
}

// A table with its words and blocks, and the caller's seat.
fn lay(
    alloc: Global,
    size: Size,
) -> Result<
    (
        Table<Block, View, Size, Claiming, Global>,
        Seat<Block, View>,
    ),
    NoMemory,
>
    ensures { IfOk result (λ t. (t.0.shared.key ≡ size) × (t.0.shared.table_id.words ≡ size.tasks + 1) × (t.0.shared.table_id.slots ≡ size.tasks)
        × (t.1.table_id ≡ t.0.shared.table_id) × (t.1.me ≡ (caller_first size, []))) }
{
    // word 0, and one for each task
    let words = vec![in alloc; 0u64; size.tasks as usize + 1]?;
    let blocks = blank_blocks(alloc, size.tasks, size.width as usize)?;
    match Table::new(alloc, words.as_slice(), blocks, &size) {
        Ok(made) => Ok(made),
        Err(Refused { slots: _ }) => Err(NoMemory),
    }
}

// The passes of the workers, in the order of their numbers.
fn seats(alloc: Global, board: &Board, own: &mut Pass, workers: u32) -> Result<Vec<Pass>, NoMemory>
    requires { (own.old ≡ record { board = board.now; view = caller_first board.now.size; block = [] }) × (workers ≡ board.now.size.workers) }
    ensures { IfOk result (λ v. AllFresh board.now workers v.items × (own.new ≡ caller_of board.now workers)) }
{
    let mut passes = Vec::with_capacity(alloc, workers as usize)?;
    for number in 0..workers {
        let pass = board.split(own, number);
        passes.push(pass)?;
    }
    Ok(passes)
}
