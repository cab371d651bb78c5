ghost use Rattle.std.specs.Prelude.{◌≡◌, true, false, ◌||◌, ◌==◌, ◌++◌, [], ◌≤◌, ◌<◌, ℕ, Some, None, length, take, OnOk, OnErr, IfOk, IsErrOf};
ghost use Rattle.ann_shelf.specs.Calls.{fails, next_fails, no_calls, one_more};
ghost use Rattle.ann_shelf.specs.Faults.{next_count};
ghost use Rattle.ann_shelf.specs.Pieces.{moved};
ghost use Rattle.ann_shelf.specs.Written.{OnlyWritten};

use crate::calls::CallLog;
use crate::faults::counted;
use crate::pieces::Piece;
use crate::{NoMemory, Out, Slip};
use std::alloc::Global;

/// An output in memory, of whose writes some can be made to fail, and each to take few bytes. The writes are numbered from 1.
#[derive(Drop)]
pub struct MemOut {
    bytes: Vec<u8>,
    calls: CallLog,
    piece: Piece,
    faults: u64,
    wants: u64,
}

impl MemOut {
    ghost use Rattle.ann_shelf.specs.MemWords.{out_bytes, out_calls, out_piece, out_faults, out_wants};

    /// No bytes, and no write that fails. It keeps the allocator and takes no memory.
    pub fn new(alloc: Global) -> MemOut
        ensures bytes { out_bytes result ≡ [] }
        ensures calls { out_calls result ≡ no_calls }
        ensures piece { out_piece result ≡ None }
        ensures faults { out_faults result ≡ 0 }
        ensures wants { out_wants result ≡ 0 }
    {
        MemOut {
            bytes: Vec::new(alloc),
            calls: CallLog::new(alloc),
            piece: Piece::unbound(),
            faults: 0,
            wants: 0,
        }
    }

    /// Has the write with this number fail, beside those named before. Number 0 names no write.
    pub fn fail_call(&mut self, number: u64) -> Result<(), NoMemory>
        ensures ok { OnOk result ((n : ℕ) → fails (out_calls self.new) n ≡ (fails (out_calls self.old) n || number == n)) }
        ensures err { OnErr result (out_calls self.new ≡ out_calls self.old) }
        ensures bytes { out_bytes self.new ≡ out_bytes self.old }
        ensures made { (out_calls self.new).made ≡ (out_calls self.old).made }
        ensures piece { out_piece self.new ≡ out_piece self.old }
        ensures faults { out_faults self.new ≡ out_faults self.old }
        ensures wants { out_wants self.new ≡ out_wants self.old }
    {
        self.calls.fail(number)
    }

    /// Has each write from now on take at most this many bytes. It takes no memory.
    pub fn set_piece(&mut self, most: usize)
        requires { 1 ≤ most }
        ensures piece { out_piece self.new ≡ Some most }
        ensures bytes { out_bytes self.new ≡ out_bytes self.old }
        ensures calls { out_calls self.new ≡ out_calls self.old }
        ensures faults { out_faults self.new ≡ out_faults self.old }
        ensures wants { out_wants self.new ≡ out_wants self.old }
    {
        self.piece = Piece::of(most);
    }

    /// The bytes written so far.
    pub fn bytes(&self) -> &[u8]
        ensures { result.now ≡ out_bytes self.now }
    {
        &self.bytes
    }
}

impl Out for MemOut {
    ghost use Rattle.ann_shelf.specs.MemWords.{out_bytes, out_calls, out_piece, out_faults, out_wants, out_got};

    ghost got = { out_got };

    /// Takes the whole piece, or as much of it as one write takes. Fails where its number is set, and nowhere else. After a refusal nothing was added.
    fn write(&mut self, bytes: &[u8]) -> Result<usize, Slip>
        ensures whole { IfOk result (λ k. k ≡ moved (out_piece self.old) (length bytes.now)) }
        ensures bound { IfOk result (λ k. k ≤ length bytes.now) }
        ensures some { IfOk result (λ k. 0 < length bytes.now → 0 < k) }
        ensures ok { OnOk result (out_bytes self.new ≡ out_bytes self.old ++ take (moved (out_piece self.old) (length bytes.now)) bytes.now) }
        ensures err { OnErr result (out_bytes self.new ≡ out_bytes self.old) }
        ensures answered { OnOk result (next_fails (out_calls self.old) ≡ false) }
        ensures set { next_fails (out_calls self.old) ≡ true → IsErrOf result Slip.Failed }
        ensures refused { IsErrOf result Slip.Failed → next_fails (out_calls self.old) ≡ true }
        ensures calls { out_calls self.new ≡ one_more (out_calls self.old) }
        ensures piece { out_piece self.new ≡ out_piece self.old }
        ensures uncounted { OnOk result ((out_faults self.new ≡ out_faults self.old) × (out_wants self.new ≡ out_wants self.old)) }
        ensures fault_counted { IsErrOf result Slip.Failed → (out_faults self.new ≡ next_count (out_faults self.old)) × (out_wants self.new ≡ out_wants self.old) }
        ensures want_counted { IsErrOf result Slip.NoMemory → (out_wants self.new ≡ next_count (out_wants self.old)) × (out_faults self.new ≡ out_faults self.old) }
        ensures only_written { OnlyWritten (out_got self.old) (out_got self.new) (IsErrOf result Slip.Failed) (IsErrOf result Slip.NoMemory) }
    {
        if self.calls.is_to_fail() {
            return Err(counted(Slip::Failed, &mut self.faults));
        }
        let taken = self.piece.moved(bytes.len());
        match self.bytes.extend_from_slice(&bytes[..taken]) {
            Ok(()) => Ok(taken),
            Err(_) => Err(counted(Slip::NoMemory, &mut self.wants)),
        }
    }
}
