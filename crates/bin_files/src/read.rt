// Reading a file of points, in whatever pieces the shelf gives.
ghost use Rattle.std.specs.Prelude.{◌++◌, ◌≡◌, ◌⊎◌, ◌+◌, ◌<◌, ◌≤◌, ◌^◌, Option, length, drop, IfOk, IfErr, IfSome, IsErrOf, None};
ghost use Rattle.std.specs.Int.{w32, to_le_bytes};
ghost use Rattle.ann_shelf.specs.Files.{bytes_of};
ghost use Rattle.ann_shelf.specs.Shown.{OnlyReads};
ghost use Rattle.bin_files.specs.Points.{u32_at, header_verdict, text};
ghost use Rattle.bin_files.specs.Rows.{ArePoints};
ghost use Rattle.bin_files.specs.Read.{ReadsAll, Judges, AreOnlyPoints, JudgesHeader, JudgesLength, JudgesBody};

use crate::elements::turned;
use crate::words::u32_le;
use crate::{Points, PointsFault, PointsRule};
use ann_defs::{Element, MAX_CELLS, MAX_DIM, MAX_POINTS};
use ann_shelf::{Quantity, Shelf, Slip};
use std::alloc::Global;

// How many bytes one call of a shelf is asked for at most.
const PIECE: usize = 262144;

/// Reads from a place of a file on, in bytes from 0, until the buffer is full or the file ends, and returns how many
/// bytes came. Each call of the shelf puts at most 262,144 bytes straight into their place.
pub fn read_full<F: Shelf>(
    shelf: &mut F,
    name: &str,
    at: u64,
    into: &mut [u8],
) -> Result<usize, Slip>
    requires { at + length into.old < 2 ^ 64 }
    ensures bound { IfOk result (λ k. k ≤ length into.new) }
    ensures bytes { IfOk result (λ k. IfSome (F.shown shelf.old).held (λ files. ReadsAll (bytes_of files name.now) at k into.new)) }
    ensures only_reads { OnlyReads (F.shown shelf.old) (F.shown shelf.new) name.now (IsErrOf result Slip.Failed) }
{
    let mut done = 0usize;
    while done < into.len() {
        let part = PIECE.min(into.len() - done);
        let got = shelf.read_at(name, at + done as u64, &mut into[done..done + part])?;
        if got == 0 {
            return Ok(done);
        }
        done += got;
    }
    Ok(done)
}

// The two numbers of a header.
fn numbers_of(header: &[u8]) -> (u32, u32)
    requires { length header.now ≡ 8 }
    ensures count { result.0 ≡ u32_at header.now 0 }
    ensures dim { result.1 ≡ u32_at header.now 4 }
    ensures spelled { header.now ≡ to_le_bytes w32 result.0 ++ to_le_bytes w32 result.1 }
{
    (u32_le(header, 0), u32_le(header, 4))
}

// The first broken rule of a header.
fn header_fault(count: u32, dim: u32) -> Option<PointsFault>
    ensures { result ≡ header_verdict count dim }
{
    if count == 0 {
        return Some(PointsFault::Malformed {
            place: 0,
            rule: PointsRule::ZeroCount,
        });
    }
    if dim == 0 {
        return Some(PointsFault::Malformed {
            place: 4,
            rule: PointsRule::ZeroDim,
        });
    }
    if count > MAX_POINTS {
        return Some(PointsFault::TooLarge {
            name: Quantity::Count,
            value: u64::from(count),
            limit: u64::from(MAX_POINTS),
        });
    }
    if dim > MAX_DIM {
        return Some(PointsFault::TooLarge {
            name: Quantity::Dim,
            value: u64::from(dim),
            limit: u64::from(MAX_DIM),
        });
    }
    let cells = u64::from(count) * u64::from(dim);
    if cells > MAX_CELLS {
        return Some(PointsFault::TooLarge {
            name: Quantity::Cells,
            value: cells,
            limit: MAX_CELLS,
        });
    }
    None
}

// The count and the dimension.
fn read_header<F: Shelf>(shelf: &mut F, name: &str) -> Result<(u32, u32), PointsFault>
    ensures verdict { IfSome (F.shown shelf.old).held (λ files. JudgesHeader (bytes_of files name.now) result) }
    ensures sound { IfOk result (λ header. header_verdict header.0 header.1 ≡ None) }
    ensures only_reads { OnlyReads (F.shown shelf.old) (F.shown shelf.new) name.now (IsErrOf result PointsFault.Read) }
{
    let mut header = [0u8; 8];
    let got = read_full(shelf, name, 0, &mut header)?;
    if got < 8 {
        return Err(PointsFault::Malformed {
            place: got as u64,
            rule: PointsRule::ShortHeader,
        });
    }
    let (count, dim) = numbers_of(&header);
    match header_fault(count, dim) {
        Some(fault) => Err(fault),
        None => Ok((count, dim)),
    }
}

// How many bytes a file has after its header, where they are fewer than so many: found by halves.
fn body_length<F: Shelf>(shelf: &mut F, name: &str, wants: u64) -> Result<u64, PointsFault>
    requires { wants ≤ MAX_CELLS }
    ensures value { IfOk result (λ has. IfSome (F.shown shelf.old).held (λ files. length (drop 8 (bytes_of files name.now)) < wants
        → has ≡ length (drop 8 (bytes_of files name.now)))) }
    ensures bound { IfOk result (λ has. has ≤ wants) }
    ensures fault { IfErr result (λ fault. (fault ≡ PointsFault.Read) ⊎ (fault ≡ PointsFault.NoMemory)) }
    ensures only_reads { OnlyReads (F.shown shelf.old) (F.shown shelf.new) name.now (IsErrOf result PointsFault.Read) }
{
    let mut least = 0u64;
    let mut most = wants;
    while least < most {
        let middle = least + (most - least) / 2;
        let mut one = [0u8; 1];
        if read_full(shelf, name, 8 + middle, &mut one)? == 0 {
            most = middle;
        } else {
            least = middle + 1;
        }
    }
    Ok(least)
}

// Sees that so many bytes stand after the header, and no more. It takes no memory.
fn check_length<F: Shelf>(shelf: &mut F, name: &str, wants: u64) -> Result<(), PointsFault>
    requires { (1 ≤ wants) × (wants ≤ MAX_CELLS) }
    ensures verdict { IfSome (F.shown shelf.old).held (λ files. JudgesLength (bytes_of files name.now) wants result) }
    ensures only_reads { OnlyReads (F.shown shelf.old) (F.shown shelf.new) name.now (IsErrOf result PointsFault.Read) }
{
    let mut last = [0u8; 2];
    let got = read_full(shelf, name, 7 + wants, &mut last)?;
    if got == 0 {
        let has = body_length(shelf, name, wants)?;
        return Err(PointsFault::Malformed {
            place: 8 + has,
            rule: PointsRule::ShortBody,
        });
    }
    if got == 2 {
        return Err(PointsFault::Malformed {
            place: 8 + wants,
            rule: PointsRule::Trailing,
        });
    }
    Ok(())
}

// The bytes after the header. Memory is taken once the file is seen to hold them.
fn read_body<F: Shelf>(
    alloc: Global,
    shelf: &mut F,
    name: &str,
    cells: usize,
) -> Result<Vec<u8>, PointsFault>
    requires { (1 ≤ cells) × (cells ≤ MAX_CELLS) }
    ensures verdict { IfSome (F.shown shelf.old).held (λ files. JudgesBody (bytes_of files name.now) cells result) }
    ensures full { IfOk result (λ body. length body.items ≡ cells) }
    ensures only_reads { OnlyReads (F.shown shelf.old) (F.shown shelf.new) name.now (IsErrOf result PointsFault.Read) }
{
    check_length(shelf, name, cells as u64)?;
    let mut bytes = vec![in alloc; 0u8; cells]?;
    let got = read_full(shelf, name, 8, &mut bytes)?;
    // A file that another program cuts meanwhile.
    if got < cells {
        return Err(PointsFault::Malformed {
            place: 8 + got as u64,
            rule: PointsRule::ShortBody,
        });
    }
    Ok(bytes)
}

/// Reads a file of points of this element, whole and strictly: the file is the text of the points, byte for byte.
///
/// The rules are tried in this order: the eight bytes of the header, a count and a dimension of at least 1, the limits
/// on count, dimension and cells, then the length of the body. The memory for the body, count times dimension bytes,
/// is taken once the file is seen to be as long as its header says. The shelf is only read.
/// `NoMemory` may come at any read; a caller can try again.
pub fn read_points_as<F: Shelf>(
    alloc: Global,
    shelf: &mut F,
    name: &str,
    element: Element,
) -> Result<Points, PointsFault>
    // Where the file's bytes are told, the answer is their verdict, or a failed read or want of memory.
    ensures verdict { IfSome (F.shown shelf.old).held (λ files. Judges element (bytes_of files name.now) result) }
    // What is read is the text of points within the limits.
    ensures points { IfOk result (λ p. ArePoints p.vectors) }
    ensures element { IfOk result (λ p. p.element ≡ element) }
    ensures text { IfOk result (λ p. IfSome (F.shown shelf.old).held (λ files. bytes_of files name.now ≡ text p)) }
    ensures only { IfOk result (λ p. IfSome (F.shown shelf.old).held (λ files. AreOnlyPoints (bytes_of files name.now) p)) }
    ensures only_reads { OnlyReads (F.shown shelf.old) (F.shown shelf.new) name.now (IsErrOf result PointsFault.Read) }
{
    let (count, dim) = read_header(shelf, name)?;
    let bytes = read_body(alloc, shelf, name, count as usize * dim as usize)?;
    Ok(Points::new(element, count, dim, turned(element, bytes)))
}

/// Reads a file of points of `U8`, as `read_points_as` does.
pub fn read_points<F: Shelf>(
    alloc: Global,
    shelf: &mut F,
    name: &str,
) -> Result<Points, PointsFault>
    ensures verdict { IfSome (F.shown shelf.old).held (λ files. Judges Element.U8 (bytes_of files name.now) result) }
    ensures points { IfOk result (λ p. ArePoints p.vectors) }
    ensures element { IfOk result (λ p. p.element ≡ Element.U8) }
    ensures text { IfOk result (λ p. IfSome (F.shown shelf.old).held (λ files. bytes_of files name.now ≡ text p)) }
    ensures only { IfOk result (λ p. IfSome (F.shown shelf.old).held (λ files. AreOnlyPoints (bytes_of files name.now) p)) }
    ensures only_reads { OnlyReads (F.shown shelf.old) (F.shown shelf.new) name.now (IsErrOf result PointsFault.Read) }
{
    read_points_as(alloc, shelf, name, Element::U8)
}
