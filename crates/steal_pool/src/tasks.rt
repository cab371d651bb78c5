//! Tasks that follow each other, run by one worker.
ghost use Rattle.std.specs.Prelude.{◌≡◌, ◌+◌, ◌<◌, ◌≤◌, ◌^◌, length, map, take, drop, All};

use crate::work::Work;
use ann_shelf::Gate;

// Runs the tasks from `from` on, one for each block. It takes no memory.
pub(crate) fn run_tasks<W: Work, G: Gate>(
    work: &W,
    scratch: &mut W::Scratch,
    worker: u32,
    from: u32,
    blocks: &mut [Vec<u32>],
    gate: &G,
)
    requires tasks { from + length blocks.old ≤ length (W.want work.now) }
    requires small { from + length blocks.old < 2 ^ 32 }
    requires wide { All (λ y. length y.items ≡ W.wide work.now) blocks.old }
    requires serves { W.serves work.now scratch.old }
    ensures blocks { map (λ y. y.items) blocks.new ≡ take (length blocks.old) (drop from (W.want work.now)) }
    ensures serves { W.serves work.now scratch.new }
{
    for (at, block) in blocks.iter_mut().enumerate() {
        let task = from + at as u32;
        gate.task(worker, task);
        work.run(scratch, task, block.as_mut_slice());
    }
}
