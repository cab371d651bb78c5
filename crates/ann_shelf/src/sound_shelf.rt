ghost use Rattle.std.specs.Prelude.{◌≡◌, ◌++◌, [], ◌≤◌, length, OnOk, OnErr, IfOk, IfErr, IsOk, IsErrOf, option_map};
ghost use Rattle.std.specs.FinMap.{get};
ghost use Rattle.ann_shelf.specs.Files.{no_files, bytes_of, with_file, without_file, Reads};
ghost use Rattle.ann_shelf.specs.Shown.{OnlyWrites};

use crate::named_files::{extend_file, file_at, read_from, set_file, take_file};
use crate::{NoMemory, Shelf, Slip};
use std::alloc::Global;

/// Files in memory on which no call fails but with `NoMemory`.
///
/// A missing file is read as an empty one. An append begins a file that isn't begun, and a finish of one leaves an empty file.
#[derive(Drop)]
pub struct SoundShelf {
    alloc: Global,
    files: Vec<(String, Vec<u8>)>,
    begun: Vec<(String, Vec<u8>)>,
}

impl SoundShelf {
    ghost use Rattle.ann_shelf.specs.MemWords.{sound_files, sound_begun};

    /// No files. It keeps the allocator and takes no memory.
    pub fn new(alloc: Global) -> SoundShelf
        ensures files { sound_files result ≡ no_files }
        ensures begun { sound_begun result ≡ no_files }
    {
        SoundShelf {
            alloc,
            files: Vec::new(alloc),
            begun: Vec::new(alloc),
        }
    }

    /// Sets a file that is held to a copy of these bytes.
    pub fn put(&mut self, name: &str, bytes: &[u8]) -> Result<(), NoMemory>
        ensures ok { OnOk result (sound_files self.new ≡ with_file (sound_files self.old) name.now bytes.now) }
        ensures err { OnErr result (sound_files self.new ≡ sound_files self.old) }
        ensures begun { sound_begun self.new ≡ sound_begun self.old }
    {
        let bytes = bytes.to_vec(self.alloc)?;
        set_file(self.alloc, &mut self.files, name, bytes)?;
        Ok(())
    }

    /// The bytes of a file that is held, none exactly where there is no such file.
    pub fn bytes(&self, name: &str) -> Option<&[u8]>
        ensures { option_map (λ s. s.now) result ≡ get (sound_files self.now) name.now }
    {
        file_at(&self.files, name)
    }
}

impl Shelf for SoundShelf {
    ghost use Rattle.std.specs.Prelude.{refl};
    ghost use Rattle.ann_shelf.specs.MemWords.{sound_files, sound_begun, sound_shown};

    ghost shown = { sound_shown };

    ghost tells_begun = { λ _. refl };

    /// Never fails. A missing file is read as an empty one.
    fn read_at(&mut self, name: &str, at: u64, into: &mut [u8]) -> Result<usize, Slip>
        ensures answered { IsOk result }
        ensures bound { IfOk result (λ k. k ≤ length into.new) }
        ensures bytes { IfOk result (λ k. Reads (bytes_of (sound_files self.old) name.now) at k into.new) }
        ensures same { sound_files self.new ≡ sound_files self.old }
        ensures begun { sound_begun self.new ≡ sound_begun self.old }
    {
        let most = into.len();
        match file_at(&self.files, name) {
            Some(bytes) => Ok(read_from(bytes, at, most, into)),
            None => Ok(0),
        }
    }

    /// Begins the file: so far it is empty.
    fn begin(&mut self, name: &str) -> Result<(), Slip>
        ensures ok { OnOk result (sound_begun self.new ≡ with_file (sound_begun self.old) name.now []) }
        ensures err { IfErr result (λ slip. (slip ≡ Slip.NoMemory) × (sound_begun self.new ≡ sound_begun self.old)) }
        ensures held { sound_files self.new ≡ sound_files self.old }
        ensures only_writes { OnlyWrites (sound_shown self.old) (sound_shown self.new) name.now (IsErrOf result Slip.Failed) }
    {
        set_file(self.alloc, &mut self.begun, name, Vec::new(self.alloc))?;
        Ok(())
    }

    /// Takes the whole piece, and begins the file where it isn't begun.
    fn append(&mut self, name: &str, bytes: &[u8]) -> Result<usize, Slip>
        ensures whole { IfOk result (λ k. k ≡ length bytes.now) }
        ensures ok { OnOk result (sound_begun self.new ≡ with_file (sound_begun self.old) name.now (bytes_of (sound_begun self.old) name.now ++ bytes.now)) }
        ensures err { IfErr result (λ slip. (slip ≡ Slip.NoMemory) × (sound_begun self.new ≡ sound_begun self.old)) }
        ensures held { sound_files self.new ≡ sound_files self.old }
        ensures only_writes { OnlyWrites (sound_shown self.old) (sound_shown self.new) name.now (IsErrOf result Slip.Failed) }
    {
        if extend_file(&mut self.begun, name, bytes)? {
            return Ok(bytes.len());
        }
        let piece = bytes.to_vec(self.alloc)?;
        set_file(self.alloc, &mut self.begun, name, piece)?;
        Ok(bytes.len())
    }

    /// Puts what was begun in the place of the file; where nothing was, the file becomes an empty one.
    fn finish(&mut self, name: &str) -> Result<(), Slip>
        ensures ok { OnOk result (sound_files self.new ≡ with_file (sound_files self.old) name.now (bytes_of (sound_begun self.old) name.now)) }
        ensures ended { OnOk result (sound_begun self.new ≡ without_file (sound_begun self.old) name.now) }
        ensures err { IfErr result (λ slip. (slip ≡ Slip.NoMemory) × (sound_files self.new ≡ sound_files self.old)) }
        ensures only_writes { OnlyWrites (sound_shown self.old) (sound_shown self.new) name.now (IsErrOf result Slip.Failed) }
    {
        let bytes = match take_file(&mut self.begun, name) {
            Some(bytes) => bytes,
            None => Vec::new(self.alloc),
        };
        set_file(self.alloc, &mut self.files, name, bytes)?;
        Ok(())
    }
}
