//! Words that go to a file through a buffer.
ghost use Rattle.std.specs.Prelude.{◌≡◌, ◌+◌, ◌*◌, ◌≤◌, ◌++◌, [], length, OnOk, IsErrOf};
ghost use Rattle.ann_shelf.specs.Shown.{OnlyWrites};
ghost use Rattle.graph_rows.specs.Index.{word, words, row_bytes, stamp_numbers, stamp_bytes, stamp_text};
ghost use Rattle.graph_files.specs.Writing.{pending, Adds};

use crate::Stamp;
use crate::pieces::Pieces;
use ann_defs::MAX_DEGREE;
use ann_shelf::{Shelf, Slip, append_all};

// The words of a stamp before its seed.
fn numbers_of(stamp: &Stamp) -> [u32; 14]
    ensures { result ≡ stamp_numbers stamp.now }
{
    [
        stamp.element,
        stamp.order,
        stamp.start_kind,
        stamp.beam,
        stamp.num,
        stamp.den,
        stamp.cap,
        stamp.bits,
        stamp.max_level,
        stamp.list,
        stamp.trees,
        stamp.leaf,
        stamp.rounds,
        stamp.passes,
    ]
}

impl Pieces {
    /// A buffer with nothing in it.
    pub(crate) fn new() -> Pieces
        ensures empty { pending result ≡ [] }
        ensures len { result.len ≡ 0 }
    {
        Pieces {
            len: 0,
            bytes: [0u8; 16384],
        }
    }

    /// Four more bytes.
    pub(crate) fn push(&mut self, n: u32)
        requires { self.old.len + 4 ≤ 16384 }
        ensures bytes { pending self.new ≡ pending self.old ++ word n }
        ensures len { self.new.len ≡ self.old.len + 4 }
    {
        let part = &mut self.bytes[self.len..self.len + 4];
        part.copy_from_slice(&n.to_le_bytes());
        self.len += 4;
    }

    /// Some more bytes.
    pub(crate) fn push_bytes(&mut self, more: &[u8])
        requires { self.old.len + length more.now ≤ 16384 }
        ensures bytes { pending self.new ≡ pending self.old ++ more.now }
        ensures len { self.new.len ≡ self.old.len + length more.now }
    {
        let part = &mut self.bytes[self.len..self.len + more.len()];
        part.copy_from_slice(more);
        self.len += more.len();
    }

    /// The bytes of a stamp.
    fn push_stamp(&mut self, stamp: &Stamp)
        requires { self.old.len + 136 ≤ 16384 }
        ensures bytes { pending self.new ≡ pending self.old ++ stamp_bytes stamp.now }
    {
        self.push_all(&numbers_of(stamp));
        self.push_bytes(&stamp.seed.to_le_bytes());
        self.push_bytes(&stamp.floor.to_le_bytes());
        self.push_bytes(&stamp.digest);
    }

    /// The bytes of a stamp, where there is one.
    pub(crate) fn push_mark(&mut self, stamp: &Option<Stamp>)
        requires { self.old.len + 136 ≤ 16384 }
        ensures bytes { pending self.new ≡ pending self.old ++ stamp_text stamp.now }
    {
        match stamp {
            Some(stamp) => self.push_stamp(stamp),
            None => {}
        }
    }

    /// Four more bytes for each number.
    pub(crate) fn push_all(&mut self, ns: &[u32])
        requires { self.old.len + 4 * length ns.now ≤ 16384 }
        ensures bytes { pending self.new ≡ pending self.old ++ words ns.now }
        ensures len { self.new.len ≡ self.old.len + 4 * length ns.now }
    {
        for n in ns {
            self.push(*n);
        }
    }

    /// All that is pending goes to the file.
    pub(crate) fn flush<F: Shelf>(&mut self, shelf: &mut F, name: &str) -> Result<(), Slip>
        ensures ok { OnOk result (Adds (F.shown shelf.old).begun (F.shown shelf.new).begun name.now (pending self.old) (pending self.new) []) }
        ensures empty { OnOk result (self.new.len ≡ 0) }
        ensures held { (F.shown shelf.new).held ≡ (F.shown shelf.old).held }
        ensures only_writes { OnlyWrites (F.shown shelf.old) (F.shown shelf.new) name.now (IsErrOf result Slip.Failed) }
    {
        append_all(shelf, name, &self.bytes[..self.len])?;
        self.len = 0;
        Ok(())
    }

    // Makes room for so many bytes.
    fn make_room<F: Shelf>(&mut self, shelf: &mut F, name: &str, size: usize) -> Result<(), Slip>
        requires { size ≤ 16384 }
        ensures ok { OnOk result (Adds (F.shown shelf.old).begun (F.shown shelf.new).begun name.now (pending self.old) (pending self.new) []) }
        ensures room { OnOk result (self.new.len + size ≤ 16384) }
        ensures held { (F.shown shelf.new).held ≡ (F.shown shelf.old).held }
        ensures only_writes { OnlyWrites (F.shown shelf.old) (F.shown shelf.new) name.now (IsErrOf result Slip.Failed) }
    {
        if self.len + size <= 16384 {
            return Ok(());
        }
        self.flush(shelf, name)
    }

    /// A number goes to the file, or is pending.
    pub(crate) fn put<F: Shelf>(&mut self, shelf: &mut F, name: &str, n: u32) -> Result<(), Slip>
        ensures ok { OnOk result (Adds (F.shown shelf.old).begun (F.shown shelf.new).begun name.now (pending self.old) (pending self.new) (word n)) }
        ensures held { (F.shown shelf.new).held ≡ (F.shown shelf.old).held }
        ensures only_writes { OnlyWrites (F.shown shelf.old) (F.shown shelf.new) name.now (IsErrOf result Slip.Failed) }
    {
        self.make_room(shelf, name, 4)?;
        self.push(n);
        Ok(())
    }

    /// A row goes to the file, or is pending, as one block.
    pub(crate) fn put_row<F: Shelf>(
        &mut self,
        shelf: &mut F,
        name: &str,
        row: &[u32],
    ) -> Result<(), Slip>
        requires { length row.now ≤ MAX_DEGREE }
        ensures ok { OnOk result (Adds (F.shown shelf.old).begun (F.shown shelf.new).begun name.now (pending self.old) (pending self.new) (row_bytes row.now)) }
        ensures held { (F.shown shelf.new).held ≡ (F.shown shelf.old).held }
        ensures only_writes { OnlyWrites (F.shown shelf.old) (F.shown shelf.new) name.now (IsErrOf result Slip.Failed) }
    {
        self.make_room(shelf, name, 4 + 4 * row.len())?;
        self.push(row.len() as u32);
        self.push_all(row);
        Ok(())
    }
}
