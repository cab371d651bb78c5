//! What a round computes.
ghost use Rattle.std.specs.Prelude.{◌≡◌, ℕ, ◌<◌, List, [], length, slice_index_or};

/// How many searches of a graph make up for starting a thread.
pub const LEAST_SEARCHES: u32 = 16;

/// A list of tasks, numbered from 0, each with a block of words that it wants.
///
/// Workers share it and run its tasks at the same time, each with a scratch of its own.
pub trait Work: Sync {
    /// What a worker needs to run tasks, one after another.
    type Scratch: Send;

    // the block of each task, in the order of the tasks
    ghost want: { Self → List (List ℕ) };

    // how many words a block has
    ghost wide: { Self → ℕ };

    // which scratches serve
    ghost serves: { Self → Self.Scratch → Type 0 };

    /// How many tasks there are.
    fn tasks(&self) -> u32
        ensures { result ≡ length (want self.now) };

    /// How many words each block has.
    fn width(&self) -> u32
        ensures { result ≡ wide self.now };

    /// How many of its tasks make up for starting a thread: a pool that spares threads gives no worker fewer.
    fn least(&self) -> u32
        ensures { 0 < result }
    {
        1
    }

    /// Writes the block of a task, whatever the block and the scratch held. It takes no memory.
    fn run(&self, scratch: &mut Self::Scratch, task: u32, out: &mut [u32])
        requires task { task < length (want self.now) }
        requires out { length out.old ≡ wide self.now }
        requires scratch { serves self.now scratch.old }
        ensures out { out.new ≡ slice_index_or (want self.now) task [] }
        ensures scratch { serves self.now scratch.new };
}
