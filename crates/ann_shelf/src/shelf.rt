ghost use Rattle.std.specs.Prelude.{◌≡◌, ◌++◌, [], ◌≤◌, ◌<◌, Some, length, take, IfOk, IfSome, IsSome, OnOk, OnErr, IsErrOf};
ghost use Rattle.ann_shelf.specs.Files.{bytes_of, with_file, without_file, Reads};
ghost use Rattle.ann_shelf.specs.Shown.{Shown, OnlyReads, OnlyWrites};

use crate::Slip;

/// Files by name, read and written in pieces.
///
/// A file is written by a `begin`, `append`s and a `finish`. What was begun and appended stands apart from the file of
/// that name until `finish`, which puts it there in one step: a reader sees the file as it was or the whole new one.
///
/// A shelf shows what it holds and what is begun, each a finite map from names to bytes, where it tells them. For each
/// name it counts the faults of reads, and those of begins, appends and finishes; no count ever falls. `Failed` comes
/// only where the count of that name rose in that call, or stands at the last value of `u64`. `NoMemory` may come at any call.
pub trait Shelf {
    /// What the shelf shows: files held and begun, and counts of faults.
    ghost shown: { Self → Shown };

    /// Reads from a place of the file on, counted in bytes from 0, and returns how many bytes came.
    ///
    /// Fewer than asked may come; none come only where `into` is empty or the place is at or past the end.
    /// A missing file is a fault or counts as empty, as the shelf says.
    fn read_at(&mut self, name: &str, at: u64, into: &mut [u8]) -> Result<usize, Slip>
        ensures bound { IfOk result (λ k. k ≤ length into.new) }
        ensures bytes { IfOk result (λ k. IfSome (shown self.old).held (λ files. Reads (bytes_of files name.now) at k into.new)) }
        ensures only_reads { OnlyReads (shown self.old) (shown self.new) name.now (IsErrOf result Slip.Failed) };

    /// Begins a file: so far it is empty. What was begun of this name before is given up.
    fn begin(&mut self, name: &str) -> Result<(), Slip>
        ensures ok { OnOk result (IfSome (shown self.old).begun (λ files. (shown self.new).begun ≡ Some (with_file files name.now []))) }
        ensures held { (shown self.new).held ≡ (shown self.old).held }
        ensures only_writes { OnlyWrites (shown self.old) (shown self.new) name.now (IsErrOf result Slip.Failed) };

    /// Adds the first bytes of a piece at the end of what is begun, at least one where there is one, and returns how many.
    ///
    /// A file that isn't begun is a fault or is begun, as the shelf says. After `Failed` it can't be told what is begun
    /// of this name: a caller that wants the file begins it again.
    fn append(&mut self, name: &str, bytes: &[u8]) -> Result<usize, Slip>
        ensures bound { IfOk result (λ k. k ≤ length bytes.now) }
        ensures some { IfOk result (λ k. 0 < length bytes.now → 0 < k) }
        ensures ok { IfOk result (λ k. IfSome (shown self.old).begun (λ files.
            (shown self.new).begun ≡ Some (with_file files name.now (bytes_of files name.now ++ take k bytes.now)))) }
        ensures held { (shown self.new).held ≡ (shown self.old).held }
        ensures only_writes { OnlyWrites (shown self.old) (shown self.new) name.now (IsErrOf result Slip.Failed) };

    /// Puts what was begun and appended in the place of the file, in one step. After a refusal the file is as it was.
    ///
    /// A file that isn't begun is a fault or becomes an empty one, as the shelf says.
    fn finish(&mut self, name: &str) -> Result<(), Slip>
        ensures ok { OnOk result (IfSome (shown self.old).begun (λ begun. IfSome (shown self.old).held (λ files.
            (shown self.new).held ≡ Some (with_file files name.now (bytes_of begun name.now))))) }
        ensures ended { OnOk result (IfSome (shown self.old).begun (λ begun. (shown self.new).begun ≡ Some (without_file begun name.now))) }
        ensures err { OnErr result ((shown self.new).held ≡ (shown self.old).held) }
        ensures only_writes { OnlyWrites (shown self.old) (shown self.new) name.now (IsErrOf result Slip.Failed) };

    /// A shelf that tells what it holds tells what is begun.
    ghost tells_begun: { (s : Self) → IfSome (shown s).held (λ _. IsSome (shown s).begun) };
}
