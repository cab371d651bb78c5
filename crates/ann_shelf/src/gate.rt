/// Called at moments of a build, so that a test can see or delay them. No clause speaks of it.
pub trait Gate {
    /// At the beginning of each task of a round. A sweep gives the number of workers as its worker.
    fn task(&self, worker: u32, task: u32);

    /// Before batch `v` begins; the first is batch 1.
    fn batch(&self, v: u32);

    /// After a query beside the build was answered for the first time, and before the same caller's next one.
    fn answer(&self, query: u32);
}

/// A gate whose calls do nothing.
#[derive(Clone, Copy, Debug)]
pub struct FreeGate;

impl Gate for FreeGate {
    fn task(&self, _worker: u32, _task: u32) {}

    fn batch(&self, _v: u32) {}

    fn answer(&self, _query: u32) {}
}
