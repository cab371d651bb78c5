//! Blocks of words that begin with a number.
ghost use Rattle.std.specs.Prelude.{◌≡◌, ◌+◌, ◌-◌, ◌^◌, ◌<◌, ◌≤◌, ◌++◌, ◌∷◌, length, replicate, take, drop};

/// Writes the first word of a block, and zeros behind the next `len` words.
pub fn seal_block(out: &mut [u32], first: usize, len: usize)
    requires room { len + 1 ≤ length out.old }
    requires small { first < 2 ^ 32 }
    ensures { out.new ≡ (first ∷ take len (drop 1 out.old)) ++ replicate (length out.old - (len + 1)) 0 }
{
    out[0] = first as u32;
    for i in len + 1..out.len() {
        out[i] = 0;
    }
}
