ghost use Rattle.std.specs.Prelude.{◌≡◌, ◌++◌, ◌≤◌, ◌<◌, List, ℕ, Some, length, take, IfOk, IfSome, IsErrOf};
ghost use Rattle.ann_shelf.specs.Written.{Got, GotSome, OnlyWritten};

use crate::Slip;

/// An output that bytes are written to.
///
/// It shows the bytes that it got, where it tells them, and counts the writes that failed and those that wanted memory;
/// neither count ever falls.
pub trait Out {
    /// What the output got: bytes, and counts of faults and of want of memory.
    ghost got: { Self → Got };

    /// Writes the first bytes of a piece, at least one where there is one, and returns how many.
    ///
    /// After `Failed` a prefix of the piece, perhaps the empty one, was written; after `NoMemory` nothing was.
    fn write(&mut self, bytes: &[u8]) -> Result<usize, Slip>
        ensures bound { IfOk result (λ k. k ≤ length bytes.now) }
        ensures some { IfOk result (λ k. 0 < length bytes.now → 0 < k) }
        ensures ok { IfOk result (λ k. IfSome (got self.old).written (λ text. (got self.new).written ≡ Some (text ++ take k bytes.now))) }
        ensures failed { IsErrOf result Slip.Failed → IfSome (got self.old).written (λ text.
            (after : List ℕ) × ((got self.new).written ≡ Some after) × GotSome text after bytes.now) }
        ensures no_memory { IsErrOf result Slip.NoMemory → (got self.new).written ≡ (got self.old).written }
        ensures only_written { OnlyWritten (got self.old) (got self.new) (IsErrOf result Slip.Failed) (IsErrOf result Slip.NoMemory) };
}
