//! A new file beside the one that it is to replace.
use crate::handles::handle_apart;
use std::alloc::Global;
use std::fmt::Write;
use std::fs::{Files, OpenFile, OpenOptions, Permissions};
use std::io::ErrorKind;
use std::path::{Path, PathBuf};
use std::{fs, io};

/// A file under a name that no other run uses, in the folder of the file that it is to replace.
///
/// Where it is dropped it is removed; `put` alone keeps it.
pub(crate) struct PartFile<'r, R: Files> {
    rt: &'r R,
    path: PathBuf,
    file: R::File,
}

impl<'r, R: Files> Drop for PartFile<'r, R> {
    fn drop(self) {
        let _ = fs::remove_file(self.rt, self.path.as_path());
        let PartFile {
            rt: _,
            path: _,
            file: _,
        } = self;
    }
}

impl<'r, R: Files> PartFile<'r, R> {
    // An empty file in the folder of this one. A name that is taken is left alone, and the next one is tried.
    pub(crate) fn beside(
        rt: &'r R,
        alloc: Global,
        target: Path<'_>,
    ) -> io::Result<PartFile<'r, R>> {
        let mut how = OpenOptions::new();
        how.write(true).create_new(true);
        for number in 0..u32::MAX {
            let mut name = String::new(alloc);
            write!(name, "annbuild-part-{number}")?;
            let mut path = PathBuf::from_str(alloc, target.as_str())?;
            path.set_file_name(name.as_str())?;
            match how.open(rt, path.as_path()) {
                Ok(file) => return PartFile { rt, path, file }.apart(),
                Err(e) if e.kind() == ErrorKind::AlreadyExists => {}
                Err(e) => return Err(e),
            }
        }
        Err(io::Error::from(ErrorKind::AlreadyExists))
    }

    // The file under a handle that is none of the standard streams. Where there is none to be had, it is removed.
    fn apart(mut self) -> io::Result<PartFile<'r, R>> {
        if let Some(apart) = handle_apart(&self.file)? {
            self.file = apart;
        }
        Ok(self)
    }

    // Gives the file these permissions.
    pub(crate) fn set_permissions(&self, permissions: Permissions) -> io::Result<()> {
        self.file.set_permissions(permissions)
    }

    // The file, to be written.
    pub(crate) fn file(&mut self) -> &mut R::File {
        &mut self.file
    }

    // Puts the file, whole and on the disk, in the place of the one that it is to replace.
    pub(crate) fn put(self, target: Path<'_>) -> io::Result<()> {
        self.file.sync_all()?;
        fs::rename(self.rt, self.path.as_path(), target)?;
        let PartFile {
            rt: _,
            path: _,
            file: _,
        } = self;
        Ok(())
    }
}
