//! Builds graph indexes for nearest-neighbour search: hands the command line, the current folder and the standard
//! streams to the top call, and ends with its code.
#![tactic(auto)]

mod progress;

ghost use Rattle.std.specs.Prelude.{◌≡◌};
ghost use Rattle.std.specs.Process.{exit_status};

use ann_shelf::{NoMemory, write_all};
use annbuild_commands::annbuild;
use folder_shelf::{DirShelf, StdOut};
use progress::{Behind, Progress};
use std::alloc::Global;
use std::env;
use std::env::Env;
use std::io::ErrorKind;
use std::process::ExitCode;

// The code and the line of want of memory, which the top call has too; here the words aren't read yet.
const NO_MEMORY: u8 = 8;

const NO_MEMORY_LINE: &[u8] = b"annbuild: out of memory\n";

// A piece of memory that the C library takes from the system by itself, of almost the greatest size that it then learns from.
const LARGE: usize = 32_000_000;

// Takes a large piece and gives it back, untouched. From then on the C library keeps what batches give back, up to twice
// that much, for the batches to come, whose pages the system would else clear anew. Nothing depends on it, so a refusal is
// passed over.
fn keep_memory(alloc: Global) {
    let mut piece = Vec::<u8>::new(alloc);
    let _ = piece.try_reserve(LARGE);
}

// The status that the process ends with.
fn exit_of(code: u8) -> ExitCode
    ensures { exit_status result ≡ code }
{
    ExitCode::from(code)
}

// The words after the program's own name. A command line that isn't text has none.
fn words_of<R: Env + AllocGlobal>(rt: &R, alloc: Global) -> Result<Vec<String>, NoMemory> {
    let mut words = Vec::new(alloc);
    match env::args(rt) {
        Ok(args) => {
            for (i, word) in args.enumerate() {
                if i > 0 {
                    words.push(word)?;
                }
            }
        }
        Err(e) if e.kind() == ErrorKind::OutOfMemory => return Err(NoMemory),
        Err(_) => {}
    }
    Ok(words)
}

fn main(rt: HostRuntime) -> ExitCode {
    let alloc = rt.alloc();
    keep_memory(alloc);
    let mut err = StdOut::err(&rt);
    let Ok(words) = words_of(&rt, alloc) else {
        // Where the line can't be written, the code tells alone.
        let _ = write_all(&mut err, NO_MEMORY_LINE);
        return exit_of(NO_MEMORY);
    };
    let progress = Progress::begin(&rt, &rt.stderr());
    let mut shelf = DirShelf::new(&rt, alloc, ".");
    let mut out = Behind {
        progress: &progress,
        out: StdOut::out(&rt),
    };
    let mut err = Behind {
        progress: &progress,
        out: err,
    };
    let status = annbuild(
        &rt, alloc, &words, &mut shelf, &mut out, &mut err, &progress,
    );
    progress.clear();
    exit_of(status.code)
}
