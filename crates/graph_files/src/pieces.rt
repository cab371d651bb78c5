//! A buffer before a file.
ghost use Rattle.std.specs.Prelude.{◌≤◌};

/// Bytes that are not yet in the file.
#[derive(Drop)]
pub(crate) struct Pieces {
    pub(crate) len: usize,
    pub(crate) bytes: [u8; 16384],
    ghost room: { len ≤ 16384 },
}
