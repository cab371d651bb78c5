//! How far a build is, on a terminal.
use ann_shelf::{Gate, Out, Slip};
use std::io::IsTerminal;
use std::time::{Clock, Instant};

/// A gate that shows which batch begins, and the seconds so far, on the error stream, if that is a terminal.
///
/// The line is written anew for each batch, and stays until `clear`. Elsewhere nothing is shown.
#[derive(Drop)]
pub(crate) struct Progress<'r, R> {
    rt: &'r R,
    // When it began; none where nothing is shown.
    began: Option<Instant>,
}

impl<'r, R: Eprint + Clock> Progress<'r, R> {
    /// Begins to show, if the error stream is a terminal.
    pub(crate) fn begin<E: IsTerminal>(rt: &'r R, err: &E) -> Progress<'r, R> {
        let began = if err.is_terminal() {
            Instant::now(rt).ok()
        } else {
            None
        };
        Progress { rt, began }
    }

    /// Takes the line away, if there is one.
    pub(crate) fn clear(&self) {
        if self.began.is_some() {
            // Where this can't be written, nothing else is lost.
            let _ = eprint!(self.rt; "\r\x1b[K");
        }
    }
}

impl<R: Eprint + Clock + Sync> Gate for Progress<'_, R> {
    fn task(&self, _worker: u32, _task: u32) {}

    fn batch(&self, v: u32) {
        let Some(began) = self.began else {
            return;
        };
        let Ok(time) = began.elapsed(self.rt) else {
            return;
        };
        let seconds = time.as_secs();
        let _ = eprint!(self.rt; "\r\x1b[Kbatch {v}, {seconds} s");
    }

    fn answer(&self, _query: u32) {}
}

/// An output on which the line of progress is taken away before anything is written.
#[derive(Drop)]
pub(crate) struct Behind<'g, 'r, R, O> {
    pub progress: &'g Progress<'r, R>,
    pub out: O,
}

impl<R: Eprint + Clock, O: Out> Out for Behind<'_, '_, R, O> {
    ghost got = { λ b. O.got b.out };

    fn write(&mut self, bytes: &[u8]) -> Result<usize, Slip> {
        self.progress.clear();
        self.out.write(bytes)
    }
}
