//! A window on a file.
ghost use Rattle.std.specs.Prelude.{◌+◌, ◌<◌, ◌≤◌, ◌^◌};

/// Bytes of a file from a place on, as many as `len`.
#[derive(Drop)]
pub(crate) struct Window {
    pub(crate) from: u64,
    pub(crate) len: usize,
    pub(crate) bytes: [u8; 16384],
    ghost room: { len ≤ 16384 },
    ghost place: { from + 16384 < 2 ^ 64 },
}
