ghost use Rattle.std.specs.Prelude.{◌≡◌, ◌≤◌};
ghost use Rattle.ann_shelf.specs.Faults.{Rose};

use crate::open_files::OpenFiles;
use ann_shelf::{Shelf, Slip, counted};
use std::alloc::Global;
use std::fs::Files;
use std::io;
use std::io::ErrorKind;

/// The files of a folder of the system.
///
/// It tells nothing of what they hold: no clause can say what a real file gives or takes. A name is a path from the
/// folder on, or an absolute one where it begins with a slash.
///
/// A file that is read is opened by the first read of its name and stays open: one that is replaced meanwhile is read
/// on as it was. A read of a missing file fails, and so does one of a folder, a pipe or a device.
///
/// A file that is begun is written to a new one in the same folder, `annbuild-part-` and a number, which `finish` syncs
/// and puts in the place of the named one; it is removed where a call fails and where the shelf is dropped. A device or
/// a pipe is written to straight. An append or finish of a file that isn't begun fails.
///
/// A call that a signal interrupts is made again. One count of failed reads, and one of failed begins, appends and
/// finishes, stands for all names.
#[derive(Drop)]
pub struct DirShelf<'r, R: Files> {
    files: OpenFiles<'r, R>,
    read_faults: u64,
    write_faults: u64,
}

impl<'r, R: Files> DirShelf<'r, R> {
    /// The folder with this path. It keeps the runtime value and the allocator, and takes no memory.
    pub fn new(rt: &'r R, alloc: Global, folder: &'r str) -> DirShelf<'r, R> {
        DirShelf {
            files: OpenFiles::new(rt, alloc, folder),
            read_faults: 0,
            write_faults: 0,
        }
    }
}

// What an error of the system is to the caller. All but want of memory count as a fault.
fn slip_of(error: &io::Error, count: &mut u64) -> Slip
    ensures cause { result ≡ Slip.Failed → Rose count.old count.new }
    ensures grew { count.old ≤ count.new }
{
    if error.kind() == ErrorKind::OutOfMemory {
        return Slip::NoMemory;
    }
    counted(Slip::Failed, count)
}

impl<'r, R: Files> Shelf for DirShelf<'r, R> {
    ghost use Rattle.std.specs.Prelude.{None};

    ghost shown = { λ s. record { held = None; begun = None; read_faults = λ _. s.read_faults; write_faults = λ _. s.write_faults } };

    ghost tells_begun = { λ _. tt };

    fn read_at(&mut self, name: &str, at: u64, into: &mut [u8]) -> Result<usize, Slip> {
        match self.files.read_at(name, at, into) {
            Ok(k) => Ok(k),
            Err(e) => Err(slip_of(&e, &mut self.read_faults)),
        }
    }

    fn begin(&mut self, name: &str) -> Result<(), Slip> {
        match self.files.begin(name) {
            Ok(()) => Ok(()),
            Err(e) => Err(slip_of(&e, &mut self.write_faults)),
        }
    }

    fn append(&mut self, name: &str, bytes: &[u8]) -> Result<usize, Slip> {
        match self.files.append(name, bytes) {
            Ok(k) => Ok(k),
            Err(e) => Err(slip_of(&e, &mut self.write_faults)),
        }
    }

    fn finish(&mut self, name: &str) -> Result<(), Slip> {
        match self.files.finish(name) {
            Ok(()) => Ok(()),
            Err(e) => Err(slip_of(&e, &mut self.write_faults)),
        }
    }
}
