//! One that waits for another, and gives up in the end.
use std::sync::atomic::{AtomicU64, Ordering};

/// How often one that waits looks before it gives up.
const LOOKS: u32 = 50_000_000;

/// Whether a number becomes other than 0 while one looks at it.
pub(crate) fn comes(number: &AtomicU64) -> bool {
    for _ in 0..LOOKS {
        if number.load(Ordering::SeqCst) != 0 {
            return true;
        }
    }
    false
}
