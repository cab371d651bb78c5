//! What a round gives.
ghost use Rattle.std.specs.Prelude.{◌≡◌, ◌^◌, ◌<◌, [], length, map, slice_index_or, All, IfOk};

use ann_shelf::NoMemory;
use std::alloc::Global;
use std::marker::Model;

/// The blocks of a round, task by task.
#[derive(Drop)]
pub struct Blocks {
    blocks: Vec<Vec<u32>>,
}

impl Blocks {
    /// No blocks. Takes no memory.
    pub fn none(alloc: Global) -> Blocks
        ensures { result ≡ [] }
    {
        Blocks {
            blocks: Vec::new(alloc),
        }
    }

    /// These blocks. Takes no memory.
    pub fn of(blocks: Vec<Vec<u32>>) -> Blocks
        requires { length blocks.items < 2 ^ 32 }
        ensures { result ≡ map (λ y. y.items) blocks.items }
    {
        Blocks { blocks }
    }

    /// How many blocks there are: one for each task.
    pub fn count(&self) -> u32
        ensures { result ≡ length self.now }
    {
        self.blocks.len() as u32
    }

    /// The block of a task.
    pub fn get(&self, task: u32) -> &[u32]
        requires { task < length self.now }
        ensures { result.now ≡ slice_index_or self.now task [] }
    {
        self.blocks[task as usize].as_slice()
    }
}

impl Model for Blocks {
    ghost use Rattle.std.specs.Prelude.{List, ℕ, map, length, ◌<◌, ◌^◌};

    ghost Value = { List (List ℕ) };

    ghost view = { λ b. map (λ y. y.items) b.blocks.items };

    ghost invariant = { λ b. length b.blocks.items < 2 ^ 32 };
}

/// Blocks before their tasks: `width` words for each task. The words are 0.
pub fn blank_blocks(alloc: Global, tasks: u32, width: usize) -> Result<Vec<Vec<u32>>, NoMemory>
    ensures count { IfOk result (λ v. length v.items ≡ tasks) }
    ensures wide { IfOk result (λ v. All (λ y. length y.items ≡ width) v.items) }
{
    let mut blocks = Vec::with_capacity(alloc, tasks as usize)?;
    for _ in 0..tasks {
        blocks.push(vec![in alloc; 0u32; width]?)?;
    }
    Ok(blocks)
}
