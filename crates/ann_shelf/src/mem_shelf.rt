ghost use Rattle.std.specs.Prelude.{◌≡◌, ◌⊎◌, true, false, ◌||◌, ◌==◌, ◌++◌, [], ◌≤◌, ◌<◌, ℕ, None, length, OnOk, OnErr, IfOk, IfErr, Some, IsSome, IsOk, IsErrOf, option_map, take};
ghost use Rattle.std.specs.FinMap.{get};
ghost use Rattle.ann_shelf.specs.Calls.{fails, next_fails, no_calls, one_more};
ghost use Rattle.ann_shelf.specs.Faults.{next_count};
ghost use Rattle.ann_shelf.specs.Files.{no_files, bytes_of, with_file, without_file, Reads};
ghost use Rattle.ann_shelf.specs.Pieces.{moved};
ghost use Rattle.ann_shelf.specs.Shown.{OnlyReads, OnlyWrites};

use crate::calls::CallLog;
use crate::faults::counted;
use crate::named_files::{extend_file, file_at, read_from, set_file, take_file};
use crate::pieces::Piece;
use crate::{NoMemory, Shelf, Slip};
use std::alloc::Global;

/// Files in memory, of whose calls some can be made to fail, and each to move few bytes.
///
/// The calls of `Shelf` are numbered from 1, those of all files together.
/// A read of a missing file fails, as does an append or finish of one that isn't begun.
/// One count of failed reads, and one of failed begins, appends and finishes, stands for all names.
#[derive(Drop)]
pub struct MemShelf {
    alloc: Global,
    files: Vec<(String, Vec<u8>)>,
    begun: Vec<(String, Vec<u8>)>,
    calls: CallLog,
    piece: Piece,
    read_faults: u64,
    write_faults: u64,
}

impl MemShelf {
    ghost use Rattle.ann_shelf.specs.MemWords.{shelf_files, shelf_begun, shelf_calls, shelf_piece, shelf_read_faults, shelf_write_faults};

    /// No files, and no call that fails. It keeps the allocator and takes no memory.
    pub fn new(alloc: Global) -> MemShelf
        ensures files { shelf_files result ≡ no_files }
        ensures begun { shelf_begun result ≡ no_files }
        ensures calls { shelf_calls result ≡ no_calls }
        ensures piece { shelf_piece result ≡ None }
        ensures reads { shelf_read_faults result ≡ 0 }
        ensures writes { shelf_write_faults result ≡ 0 }
    {
        MemShelf {
            alloc,
            files: Vec::new(alloc),
            begun: Vec::new(alloc),
            calls: CallLog::new(alloc),
            piece: Piece::unbound(),
            read_faults: 0,
            write_faults: 0,
        }
    }

    /// Sets a file that is held to a copy of these bytes. It is no call of the trait: it is not counted, and does not fail by number.
    pub fn put(&mut self, name: &str, bytes: &[u8]) -> Result<(), NoMemory>
        ensures ok { OnOk result (shelf_files self.new ≡ with_file (shelf_files self.old) name.now bytes.now) }
        ensures err { OnErr result (shelf_files self.new ≡ shelf_files self.old) }
        ensures begun { shelf_begun self.new ≡ shelf_begun self.old }
        ensures calls { shelf_calls self.new ≡ shelf_calls self.old }
        ensures piece { shelf_piece self.new ≡ shelf_piece self.old }
        ensures reads { shelf_read_faults self.new ≡ shelf_read_faults self.old }
        ensures writes { shelf_write_faults self.new ≡ shelf_write_faults self.old }
    {
        let bytes = bytes.to_vec(self.alloc)?;
        set_file(self.alloc, &mut self.files, name, bytes)?;
        Ok(())
    }

    /// The bytes of a file that is held, none exactly where there is no such file.
    pub fn bytes(&self, name: &str) -> Option<&[u8]>
        ensures { option_map (λ s. s.now) result ≡ get (shelf_files self.now) name.now }
    {
        file_at(&self.files, name)
    }

    /// Has the call with this number fail, beside those named before. Number 0 names no call.
    pub fn fail_call(&mut self, number: u64) -> Result<(), NoMemory>
        ensures ok { OnOk result ((n : ℕ) → fails (shelf_calls self.new) n ≡ (fails (shelf_calls self.old) n || number == n)) }
        ensures err { OnErr result (shelf_calls self.new ≡ shelf_calls self.old) }
        ensures files { shelf_files self.new ≡ shelf_files self.old }
        ensures begun { shelf_begun self.new ≡ shelf_begun self.old }
        ensures made { (shelf_calls self.new).made ≡ (shelf_calls self.old).made }
        ensures piece { shelf_piece self.new ≡ shelf_piece self.old }
        ensures reads { shelf_read_faults self.new ≡ shelf_read_faults self.old }
        ensures writes { shelf_write_faults self.new ≡ shelf_write_faults self.old }
    {
        self.calls.fail(number)
    }

    /// Has each call from now on move at most this many bytes: a read gives no more, and an append takes no more. It takes no
    /// memory.
    pub fn set_piece(&mut self, most: usize)
        requires { 1 ≤ most }
        ensures piece { shelf_piece self.new ≡ Some most }
        ensures files { shelf_files self.new ≡ shelf_files self.old }
        ensures begun { shelf_begun self.new ≡ shelf_begun self.old }
        ensures calls { shelf_calls self.new ≡ shelf_calls self.old }
        ensures reads { shelf_read_faults self.new ≡ shelf_read_faults self.old }
        ensures writes { shelf_write_faults self.new ≡ shelf_write_faults self.old }
    {
        self.piece = Piece::of(most);
    }

    /// How many calls of the trait there were. It stays at the last value of `u64`.
    pub fn calls(&self) -> u64
        ensures { result ≡ (shelf_calls self.now).made }
    {
        self.calls.made()
    }
}

impl Shelf for MemShelf {
    ghost use Rattle.std.specs.Prelude.{refl};
    ghost use Rattle.ann_shelf.specs.declared.slip.Slip.TheVariants.{Failed};
    ghost use Rattle.ann_shelf.specs.MemWords.{shelf_files, shelf_begun, shelf_calls, shelf_piece, shelf_read_faults, shelf_write_faults, shelf_shown, FailsAsSet, WriteCounts};

    ghost shown = { shelf_shown };

    ghost tells_begun = { λ _. refl };

    /// Fails where its number is set and where the file is missing, and nowhere else.
    fn read_at(&mut self, name: &str, at: u64, into: &mut [u8]) -> Result<usize, Slip>
        ensures bound { IfOk result (λ k. k ≤ length into.new) }
        ensures most { IfOk result (λ k. k ≤ moved (shelf_piece self.old) (length into.old)) }
        ensures bytes { IfOk result (λ k. Reads (bytes_of (shelf_files self.old) name.now) at k into.new) }
        ensures answered { OnOk result ((next_fails (shelf_calls self.old) ≡ false) × IsSome (get (shelf_files self.old) name.now)) }
        ensures refused { IfErr result (λ slip. (slip ≡ Slip.Failed) × ((next_fails (shelf_calls self.old) ≡ true) ⊎ (get (shelf_files self.old) name.now ≡ None))) }
        ensures calls { shelf_calls self.new ≡ one_more (shelf_calls self.old) }
        ensures piece { shelf_piece self.new ≡ shelf_piece self.old }
        ensures counted { OnErr result (shelf_read_faults self.new ≡ next_count (shelf_read_faults self.old)) }
        ensures uncounted { OnOk result (shelf_read_faults self.new ≡ shelf_read_faults self.old) }
        ensures writes { shelf_write_faults self.new ≡ shelf_write_faults self.old }
        ensures only_reads { OnlyReads (shelf_shown self.old) (shelf_shown self.new) name.now (IsErrOf result Slip.Failed) }
    {
        if self.calls.is_to_fail() {
            return Err(counted(Slip::Failed, &mut self.read_faults));
        }
        let most = self.piece.moved(into.len());
        match file_at(&self.files, name) {
            Some(bytes) => Ok(read_from(bytes, at, most, into)),
            None => Err(counted(Slip::Failed, &mut self.read_faults)),
        }
    }

    /// Fails where its number is set, and nowhere else. After a refusal nothing that is begun changed.
    fn begin(&mut self, name: &str) -> Result<(), Slip>
        ensures ok { OnOk result (shelf_begun self.new ≡ with_file (shelf_begun self.old) name.now []) }
        ensures err { OnErr result (shelf_begun self.new ≡ shelf_begun self.old) }
        ensures held { shelf_files self.new ≡ shelf_files self.old }
        ensures answered { OnOk result (next_fails (shelf_calls self.old) ≡ false) }
        ensures set { next_fails (shelf_calls self.old) ≡ true → IsErrOf result Slip.Failed }
        ensures refused { IsErrOf result Slip.Failed → next_fails (shelf_calls self.old) ≡ true }
        ensures counts { WriteCounts self.old self.new (IsOk result) (IsErrOf result Slip.Failed) (IsErrOf result Slip.NoMemory) }
        ensures only_writes { OnlyWrites (shelf_shown self.old) (shelf_shown self.new) name.now (IsErrOf result Slip.Failed) }
    {
        if self.calls.is_to_fail() {
            return Err(counted(Slip::Failed, &mut self.write_faults));
        }
        set_file(self.alloc, &mut self.begun, name, Vec::new(self.alloc))?;
        Ok(())
    }

    /// Takes the whole piece, or as much of it as one call moves. Fails where its number is set and where the file isn't begun, and nowhere else.
    /// After a refusal nothing that is begun changed.
    fn append(&mut self, name: &str, bytes: &[u8]) -> Result<usize, Slip>
        ensures whole { IfOk result (λ k. k ≡ moved (shelf_piece self.old) (length bytes.now)) }
        ensures bound { IfOk result (λ k. k ≤ length bytes.now) }
        ensures some { IfOk result (λ k. 0 < length bytes.now → 0 < k) }
        ensures ok { OnOk result (shelf_begun self.new ≡ with_file (shelf_begun self.old) name.now (bytes_of (shelf_begun self.old) name.now ++ take (moved (shelf_piece self.old) (length bytes.now)) bytes.now)) }
        ensures err { OnErr result (shelf_begun self.new ≡ shelf_begun self.old) }
        ensures held { shelf_files self.new ≡ shelf_files self.old }
        ensures failures { FailsAsSet self.old name.now (IsOk result) (IsErrOf result Slip.Failed) }
        ensures counts { WriteCounts self.old self.new (IsOk result) (IsErrOf result Slip.Failed) (IsErrOf result Slip.NoMemory) }
        ensures only_writes { OnlyWrites (shelf_shown self.old) (shelf_shown self.new) name.now (IsErrOf result Slip.Failed) }
    {
        if self.calls.is_to_fail() {
            return Err(counted(Slip::Failed, &mut self.write_faults));
        }
        let taken = self.piece.moved(bytes.len());
        if extend_file(&mut self.begun, name, &bytes[..taken])? {
            return Ok(taken);
        }
        Err(counted(Slip::Failed, &mut self.write_faults))
    }

    /// Fails where its number is set and where the file isn't begun, and nowhere else.
    /// After a refusal nothing that is held changed.
    fn finish(&mut self, name: &str) -> Result<(), Slip>
        ensures ok { OnOk result (shelf_files self.new ≡ with_file (shelf_files self.old) name.now (bytes_of (shelf_begun self.old) name.now)) }
        ensures ended { OnOk result (shelf_begun self.new ≡ without_file (shelf_begun self.old) name.now) }
        ensures err { OnErr result (shelf_files self.new ≡ shelf_files self.old) }
        ensures failures { FailsAsSet self.old name.now (IsOk result) (IsErrOf result Slip.Failed) }
        ensures counts { WriteCounts self.old self.new (IsOk result) (IsErrOf result Slip.Failed) (IsErrOf result Slip.NoMemory) }
        ensures only_writes { OnlyWrites (shelf_shown self.old) (shelf_shown self.new) name.now (IsErrOf result Slip.Failed) }
    {
        if self.calls.is_to_fail() {
            return Err(counted(Slip::Failed, &mut self.write_faults));
        }
        let Some(bytes) = take_file(&mut self.begun, name) else {
            return Err(counted(Slip::Failed, &mut self.write_faults));
        };
        set_file(self.alloc, &mut self.files, name, bytes)?;
        Ok(())
    }
}
