ghost use Rattle.std.specs.Prelude.{◌≡◌, ◌+◌, ◌<◌, ◌≤◌, ℕ, length, slice_index};
ghost use Rattle.bin_files.specs.Points.{u32_at};

/// The number in four bytes from a place on, the least significant first.
pub fn u32_le(bytes: &[u8], at: usize) -> u32
    requires { at + 4 ≤ length bytes.now }
    ensures value { result ≡ u32_at bytes.now at }
    ensures are_bytes { (i : ℕ) → slice_index bytes.now i < 256 }
{
    u32::from_le_bytes([bytes[at], bytes[at + 1], bytes[at + 2], bytes[at + 3]])
}
