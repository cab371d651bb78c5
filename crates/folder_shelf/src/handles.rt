//! Opening, reading and writing files of the system.
ghost use Rattle.std.specs.Prelude.{◌≤◌, ◌<◌, length, IfOk};

use std::fs::{Files, OpenFile, OpenOptions};
use std::io::{ErrorKind, Read, Seek, SeekFrom, Write};
use std::path::Path;
use std::{fs, io};

// A second handle of a file, which is none of the three standard streams: where the program was started with one of them
// closed, the system gives its number to the first file that is opened, and what is printed would go there.
// A system that has no second handles has no streams that a file could stand for, and gives none.
pub(crate) fn handle_apart<H: OpenFile>(file: &H) -> io::Result<Option<H>> {
    match file.try_clone() {
        Ok(apart) => Ok(Some(apart)),
        Err(e) if e.kind() == ErrorKind::Unsupported => Ok(None),
        Err(e) => Err(e),
    }
}

// Opens a file under a handle that is none of the standard streams.
pub(crate) fn open_apart<R: Files>(
    rt: &R,
    how: &OpenOptions,
    path: Path<'_>,
) -> io::Result<R::File> {
    let file = how.open(rt, path)?;
    match handle_apart(&file)? {
        Some(apart) => Ok(apart),
        None => Ok(file),
    }
}

// Opens a regular file to read it. Opening a pipe would wait for a writer, so the path is asked first.
pub(crate) fn open_to_read<R: Files>(rt: &R, path: Path<'_>) -> io::Result<R::File> {
    if !fs::metadata(rt, path)?.is_file() {
        return Err(io::Error::from(ErrorKind::InvalidInput));
    }
    let mut how = OpenOptions::new();
    how.read(true);
    let file = open_apart(rt, &how, path)?;
    if !file.metadata()?.is_file() {
        return Err(io::Error::from(ErrorKind::InvalidInput));
    }
    Ok(file)
}

// Reads from a place of a file on. A read that a signal interrupts is made again.
pub(crate) fn read_from_place<H: Read + Seek>(
    file: &mut H,
    at: u64,
    into: &mut [u8],
) -> io::Result<usize>
    ensures { IfOk result (λ k. k ≤ length into.new) }
{
    file.seek(SeekFrom::Start(at))?;
    for _ in 0..u64::MAX {
        match file.read(into) {
            Ok(k) => return Ok(k),
            Err(e) if e.kind() == ErrorKind::Interrupted => {}
            Err(e) => return Err(e),
        }
    }
    Err(io::Error::from(ErrorKind::TimedOut))
}

// Writes the first bytes of a piece, at least one where there is one. A write that a signal interrupts is made again.
pub(crate) fn write_piece<H: Write>(file: &mut H, bytes: &[u8]) -> io::Result<usize>
    ensures bound { IfOk result (λ k. k ≤ length bytes.now) }
    ensures some { IfOk result (λ k. 0 < length bytes.now → 0 < k) }
{
    for _ in 0..u64::MAX {
        match file.write(bytes) {
            Ok(0) if !bytes.is_empty() => return Err(io::Error::from(ErrorKind::WriteZero)),
            Ok(k) => return Ok(k),
            Err(e) if e.kind() == ErrorKind::Interrupted => {}
            Err(e) => return Err(e),
        }
    }
    Err(io::Error::from(ErrorKind::TimedOut))
}
