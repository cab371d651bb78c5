// Pieces that are appended and written whole, however little one call takes.
ghost use Rattle.std.specs.Prelude.{◌≡◌, ◌++◌, List, ℕ, Some, IfSome, OnOk, OnErr, IsErrOf};
ghost use Rattle.ann_shelf.specs.Files.{Grows};
ghost use Rattle.ann_shelf.specs.Shown.{OnlyWrites};
ghost use Rattle.ann_shelf.specs.Written.{GotSome, OnlyWritten};

use crate::{Out, Shelf, Slip};

/// Adds a piece at the end of a file that is begun, in as many appends as it takes. It takes no memory of its own.
///
/// After a refusal it can't be told what is begun of this name. An empty piece makes no call.
pub fn append_all<F: Shelf>(shelf: &mut F, name: &str, bytes: &[u8]) -> Result<(), Slip>
    ensures ok { OnOk result (Grows (F.shown shelf.old).begun (F.shown shelf.new).begun name.now bytes.now) }
    ensures held { (F.shown shelf.new).held ≡ (F.shown shelf.old).held }
    ensures only_writes { OnlyWrites (F.shown shelf.old) (F.shown shelf.new) name.now (IsErrOf result Slip.Failed) }
{
    let mut done = 0usize;
    while done < bytes.len() {
        done += shelf.append(name, &bytes[done..])?;
    }
    Ok(())
}

/// Writes a piece to an output, in as many writes as it takes. It takes no memory of its own.
///
/// After a refusal a prefix of the piece, perhaps the empty one, was written. An empty piece makes no call.
pub fn write_all<O: Out>(out: &mut O, bytes: &[u8]) -> Result<(), Slip>
    ensures ok { OnOk result (IfSome (O.got out.old).written (λ text. (O.got out.new).written ≡ Some (text ++ bytes.now))) }
    ensures err { OnErr result (IfSome (O.got out.old).written (λ text.
        (after : List ℕ) × ((O.got out.new).written ≡ Some after) × GotSome text after bytes.now)) }
    ensures only_written { OnlyWritten (O.got out.old) (O.got out.new) (IsErrOf result Slip.Failed) (IsErrOf result Slip.NoMemory) }
{
    let mut written = 0usize;
    while written < bytes.len() {
        written += out.write(&bytes[written..])?;
    }
    Ok(())
}
