//! Words of a file by their places, through a window on it.
ghost use Rattle.std.specs.Prelude.{◌≡◌, ◌⊎◌, ◌+◌, ◌*◌, ◌<◌, ◌≤◌, ◌^◌, List, ℕ, true, length, slice_index, Ok, IfOk, IfErr, IfSome, IsErrOf, drop};
ghost use Rattle.ann_shelf.specs.Files.{bytes_of};
ghost use Rattle.ann_shelf.specs.Shown.{OnlyReads};
ghost use Rattle.graph_files.specs.Grammar.{word_at};
ghost use Rattle.graph_files.specs.Reading.{AreBytesIn, Gives, Shows};

use crate::window::Window;
use crate::{IndexFault, IndexRule};
use ann_shelf::Shelf;
use bin_files::{read_full, u32_le};

impl Window {
    /// A window that shows nothing yet.
    pub(crate) fn new() -> Window
        ensures { (file : List ℕ) → Shows file result }
    {
        Window {
            from: 0,
            len: 0,
            bytes: [0u8; 16384],
        }
    }

    /// Moves the window to a place.
    pub(crate) fn move_to<F: Shelf>(
        &mut self,
        shelf: &mut F,
        name: &str,
        at: u64,
    ) -> Result<(), IndexFault>
        requires { at + 16384 < 2 ^ 64 }
        ensures shows { IfSome (F.shown shelf.old).held (λ files. Shows (bytes_of files name.now) self.new) }
        ensures place { IfOk result (λ _. self.new.from ≡ at) }
        ensures ends { IfOk result (λ _. IfSome (F.shown shelf.old).held (λ files. self.new.len < 16384 → self.new.len ≡ length (drop at (bytes_of files name.now)))) }
        ensures only_reads { OnlyReads (F.shown shelf.old) (F.shown shelf.new) name.now (IsErrOf result IndexFault.Read) }
        ensures memory { IfErr result (λ e. (e ≡ IndexFault.Read) ⊎ (e ≡ IndexFault.NoMemory)) }
    {
        self.len = 0;
        self.from = at;
        self.len = read_full(shelf, name, at, &mut self.bytes)?;
        Ok(())
    }

    /// The word at a place.
    pub(crate) fn word<F: Shelf>(
        &mut self,
        shelf: &mut F,
        name: &str,
        at: u64,
    ) -> Result<u32, IndexFault>
        requires place { at + 16384 < 2 ^ 64 }
        requires shows { IfSome (F.shown shelf.old).held (λ files. Shows (bytes_of files name.now) self.old) }
        ensures bytes { IfOk result (λ _. IfSome (F.shown shelf.old).held (λ files. AreBytesIn (bytes_of files name.now) at (at + 4))) }
        ensures word { IfSome (F.shown shelf.old).held (λ files. Gives (λ n. n) result (word_at (bytes_of files name.now) at)) }
        ensures shows { IfSome (F.shown shelf.old).held (λ files. Shows (bytes_of files name.now) self.new) }
        ensures only_reads { OnlyReads (F.shown shelf.old) (F.shown shelf.new) name.now (IsErrOf result IndexFault.Read) }
    {
        if self.from <= at && at + 4 <= self.from + self.len as u64 {
            return Ok(u32_le(&self.bytes, (at - self.from) as usize));
        }
        self.move_to(shelf, name, at)?;
        if self.len < 4 {
            return Err(IndexFault::Malformed {
                place: at + self.len as u64,
                rule: IndexRule::Short,
            });
        }
        Ok(u32_le(&self.bytes, 0))
    }

    /// Whether the window shows as many words from a place on as there are cells. Then they are in the cells.
    pub(crate) fn words(&self, at: u64, cells: &mut [u32]) -> bool
        requires { at + 4 * length cells.old < 2 ^ 64 }
        ensures words { result ≡ true → (file : List ℕ) → Shows file self.now → (k : ℕ) → k < length cells.new → word_at file (at + 4 * k) ≡ Ok (slice_index cells.new k) }
        ensures bytes { result ≡ true → (file : List ℕ) → Shows file self.now → AreBytesIn file at (at + 4 * length cells.new) }
    {
        if at < self.from {
            return false;
        }
        if self.from + (self.len as u64) < at + 4 * cells.len() as u64 {
            return false;
        }
        let from = (at - self.from) as usize;
        let part = &self.bytes[from..from + 4 * cells.len()];
        for i in 0..cells.len() {
            cells[i] = u32_le(part, 4 * i);
        }
        true
    }
}
