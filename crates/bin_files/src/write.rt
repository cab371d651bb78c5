// Writing a file of points.
ghost use Rattle.std.specs.Prelude.{◌≡◌, Some, IfSome, OnOk, OnErr, IsErrOf};
ghost use Rattle.ann_shelf.specs.Files.{with_file, Grows};
ghost use Rattle.ann_shelf.specs.Shown.{OnlyWrites};
ghost use Rattle.bin_files.specs.Points.{file_bytes, text};
ghost use Rattle.bin_files.specs.Rows.{cells};
ghost use Rattle.bin_files.specs.Write.{header_text};

use crate::Points;
use crate::elements::turn;
use ann_defs::Element;
use ann_shelf::{Shelf, Slip, append_all};

// How many bytes of `I8` points are turned at a time.
const PIECE: usize = 4096;

// The eight bytes before the points.
fn header_of(points: &Points) -> [u8; 8]
    ensures { result ≡ header_text points.now.vectors }
{
    let [a, b, c, d] = points.count().to_le_bytes();
    let [e, f, g, h] = points.dim().to_le_bytes();
    [a, b, c, d, e, f, g, h]
}

// Adds the bytes of stored numbers of `I8` at the end of a file, by pieces that are turned in a buffer of their own.
fn append_signed<F: Shelf>(shelf: &mut F, name: &str, stored: &[u8]) -> Result<(), Slip>
    ensures ok { OnOk result (Grows (F.shown shelf.old).begun (F.shown shelf.new).begun name.now (file_bytes Element.I8 stored.now)) }
    ensures held { (F.shown shelf.new).held ≡ (F.shown shelf.old).held }
    ensures only_writes { OnlyWrites (F.shown shelf.old) (F.shown shelf.new) name.now (IsErrOf result Slip.Failed) }
{
    let mut done = 0usize;
    while done < stored.len() {
        let mut buffer = [0u8; PIECE];
        let len = PIECE.min(stored.len() - done);
        let piece = &mut buffer[..len];
        piece.copy_from_slice(&stored[done..done + len]);
        turn(Element::I8, piece);
        append_all(shelf, name, piece)?;
        done += len;
    }
    Ok(())
}

// Adds the bytes of the points at the end of a file, by what their numbers stand for.
fn append_points<F: Shelf>(shelf: &mut F, name: &str, points: &Points) -> Result<(), Slip>
    ensures ok { OnOk result (Grows (F.shown shelf.old).begun (F.shown shelf.new).begun name.now (file_bytes points.now.element (cells points.now.vectors))) }
    ensures held { (F.shown shelf.new).held ≡ (F.shown shelf.old).held }
    ensures only_writes { OnlyWrites (F.shown shelf.old) (F.shown shelf.new) name.now (IsErrOf result Slip.Failed) }
{
    match points.element() {
        Element::U8 => append_all(shelf, name, points.as_bytes()),
        Element::I8 => append_signed(shelf, name, points.as_bytes()),
    }
}

/// Writes a file of points, in the place of what the file held. It takes no memory of its own, but fails with
/// `NoMemory` where the shelf does.
///
/// After a refusal all files are as they were.
pub fn write_points<F: Shelf>(shelf: &mut F, name: &str, points: &Points) -> Result<(), Slip>
    ensures ok { OnOk result (IfSome (F.shown shelf.old).held (λ files. (F.shown shelf.new).held ≡ Some (with_file files name.now (text points.now)))) }
    ensures err { OnErr result ((F.shown shelf.new).held ≡ (F.shown shelf.old).held) }
    ensures only_writes { OnlyWrites (F.shown shelf.old) (F.shown shelf.new) name.now (IsErrOf result Slip.Failed) }
{
    let header = header_of(points);
    shelf.begin(name)?;
    append_all(shelf, name, &header)?;
    append_points(shelf, name, points)?;
    shelf.finish(name)
}
