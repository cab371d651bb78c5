//! The files of a folder that are open: each that is read, and each that is written.
ghost use Rattle.std.specs.Prelude.{◌≤◌, ◌<◌, length, IfOk, IfSome};

use crate::handles::{open_apart, open_to_read, read_from_place, write_piece};
use crate::part_file::PartFile;
use std::alloc::Global;
use std::fs::{Files, OpenFile, OpenOptions};
use std::io::ErrorKind;
use std::path::PathBuf;
use std::{fs, io};

// A file that is read, under one handle from the first read of its name on.
#[derive(Drop)]
struct Reading<H> {
    name: String,
    file: H,
}

// Where the pieces of a file that is written go.
#[derive(Drop)]
enum Pieces<'r, R: Files> {
    // To a new file, which is to stand at this path.
    Part(PartFile<'r, R>, PathBuf),
    // Straight to a device or a pipe.
    Straight(R::File),
}

// A file that is begun and isn't finished.
#[derive(Drop)]
struct Writing<'r, R: Files> {
    name: String,
    pieces: Pieces<'r, R>,
}

/// The files of a folder that are open. Memory is taken for the first call on a name alone.
#[derive(Drop)]
pub(crate) struct OpenFiles<'r, R: Files> {
    rt: &'r R,
    alloc: Global,
    folder: &'r str,
    reading: Vec<Reading<R::File>>,
    writing: Vec<Writing<'r, R>>,
}

impl<'r, R: Files> OpenFiles<'r, R> {
    pub(crate) fn new(rt: &'r R, alloc: Global, folder: &'r str) -> OpenFiles<'r, R> {
        OpenFiles {
            rt,
            alloc,
            folder,
            reading: Vec::new(alloc),
            writing: Vec::new(alloc),
        }
    }

    // The path of a name, which is absolute where it begins with a slash.
    fn path(&self, name: &str) -> io::Result<PathBuf> {
        let mut path = PathBuf::from_str(self.alloc, self.folder)?;
        path.push(name)?;
        Ok(path)
    }

    // Where a file of this name is read.
    fn place_read(&self, name: &str) -> Option<usize>
        ensures { IfSome result (λ i. i < length self.now.reading.items) }
    {
        for (i, reading) in self.reading.iter().enumerate() {
            if reading.name.as_str() == name {
                return Some(i);
            }
        }
        None
    }

    // Where a file of this name is written.
    fn place_written(&self, name: &str) -> Option<usize>
        ensures { IfSome result (λ i. i < length self.now.writing.items) }
    {
        for (i, writing) in self.writing.iter().enumerate() {
            if writing.name.as_str() == name {
                return Some(i);
            }
        }
        None
    }

    // Reads from a place on. The file stays open.
    pub(crate) fn read_at(&mut self, name: &str, at: u64, into: &mut [u8]) -> io::Result<usize>
        ensures { IfOk result (λ k. k ≤ length into.new) }
    {
        if let Some(i) = self.place_read(name) {
            return read_from_place(&mut self.reading[i].file, at, into);
        }
        let path = self.path(name)?;
        let name = String::from_str(self.alloc, name)?;
        let mut file = open_to_read(self.rt, path.as_path())?;
        let got = read_from_place(&mut file, at, into)?;
        self.reading.push(Reading { name, file })?;
        Ok(got)
    }

    // Begins a file: a new one beside that of this name, or the device or pipe itself.
    pub(crate) fn begin(&mut self, name: &str) -> io::Result<()> {
        if let Some(i) = self.place_written(name) {
            self.writing.swap_remove(i);
        }
        let path = self.path(name)?;
        let name = String::from_str(self.alloc, name)?;
        let pieces = begin_at(self.rt, self.alloc, path)?;
        self.writing.push(Writing { name, pieces })?;
        Ok(())
    }

    // Adds the first bytes of a piece to a file that is begun. After an error it is begun no more.
    pub(crate) fn append(&mut self, name: &str, bytes: &[u8]) -> io::Result<usize>
        ensures bound { IfOk result (λ k. k ≤ length bytes.now) }
        ensures some { IfOk result (λ k. 0 < length bytes.now → 0 < k) }
    {
        let Some(i) = self.place_written(name) else {
            return Err(io::Error::from(ErrorKind::NotFound));
        };
        let written = match &mut self.writing[i].pieces {
            Pieces::Part(part, _) => write_piece(part.file(), bytes),
            Pieces::Straight(file) => write_piece(file, bytes),
        };
        if written.is_err() {
            self.writing.swap_remove(i);
        }
        written
    }

    // Puts a file that is begun in its place. It is begun no more, and what is read of its name is opened anew.
    pub(crate) fn finish(&mut self, name: &str) -> io::Result<()> {
        let Some(i) = self.place_written(name) else {
            return Err(io::Error::from(ErrorKind::NotFound));
        };
        end(self.writing.swap_remove(i).pieces)?;
        if let Some(i) = self.place_read(name) {
            self.reading.swap_remove(i);
        }
        Ok(())
    }
}

// Where the pieces of the file with this path go. What is there has to be writable, and keeps its permissions.
fn begin_at<'r, R: Files>(rt: &'r R, alloc: Global, path: PathBuf) -> io::Result<Pieces<'r, R>> {
    let mut how = OpenOptions::new();
    how.write(true);
    match open_apart(rt, &how, path.as_path()) {
        Ok(file) => {
            let found = file.metadata()?;
            if !found.is_file() {
                return Ok(Pieces::Straight(file));
            }
            // A link stays, and what it leads to is replaced.
            let path = if fs::symlink_metadata(rt, path.as_path())?.is_symlink() {
                rt.canonicalize(alloc, path.as_path().as_str())?
            } else {
                path
            };
            let part = PartFile::beside(rt, alloc, path.as_path())?;
            part.set_permissions(found.permissions())?;
            Ok(Pieces::Part(part, path))
        }
        Err(e) if e.kind() == ErrorKind::NotFound => {
            let part = PartFile::beside(rt, alloc, path.as_path())?;
            Ok(Pieces::Part(part, path))
        }
        Err(e) => Err(e),
    }
}

// Ends a file that is written: a new one is put in its place.
fn end<'r, R: Files>(pieces: Pieces<'r, R>) -> io::Result<()> {
    match pieces {
        Pieces::Part(part, path) => part.put(path.as_path()),
        Pieces::Straight(file) => {
            drop(file);
            Ok(())
        }
    }
}
