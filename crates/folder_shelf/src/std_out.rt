ghost use Rattle.std.specs.Prelude.{◌≤◌, length, IfOk};

use ann_shelf::{Out, Slip, counted};
use std::io;
use std::io::ErrorKind;

/// The standard output or the standard error as an output.
///
/// It tells nothing of what was written. To standard error only text can be written: bytes that aren't UTF-8 are a fault.
#[derive(Drop)]
pub struct StdOut<'r, R> {
    rt: &'r R,
    is_err: bool,
    faults: u64,
    wants: u64,
}

impl<'r, R: Print + Eprint> StdOut<'r, R> {
    /// Standard output.
    pub fn out(rt: &'r R) -> StdOut<'r, R> {
        StdOut {
            rt,
            is_err: false,
            faults: 0,
            wants: 0,
        }
    }

    /// Standard error.
    pub fn err(rt: &'r R) -> StdOut<'r, R> {
        StdOut {
            rt,
            is_err: true,
            faults: 0,
            wants: 0,
        }
    }
}

// One write. To standard error only text can be written.
fn write_some<R: Print + Eprint>(rt: &R, is_err: bool, bytes: &[u8]) -> io::Result<usize>
    ensures { IfOk result (λ k. k ≤ length bytes.now) }
{
    if !is_err {
        return rt.write_some(bytes);
    }
    match std::str::from_utf8(bytes) {
        Ok(text) => {
            rt.eprint(text)?;
            Ok(bytes.len())
        }
        Err(_) => Err(io::Error::from(ErrorKind::InvalidData)),
    }
}

impl<'r, R: Print + Eprint> Out for StdOut<'r, R> {
    ghost use Rattle.std.specs.Prelude.{None};

    ghost got = { λ s. record { written = None; faults = s.faults; wants = s.wants } };

    fn write(&mut self, bytes: &[u8]) -> Result<usize, Slip> {
        match write_some(self.rt, self.is_err, bytes) {
            Ok(k) if 0 < k || bytes.is_empty() => Ok(k),
            Err(e) if e.kind() == ErrorKind::OutOfMemory => Err(counted(
                Slip::NoMemory,
                &mut self.wants,
            )),
            _ => Err(counted(Slip::Failed, &mut self.faults)),
        }
    }
}
