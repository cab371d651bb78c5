//! Rows in blocks.
ghost use Rattle.std.specs.Prelude.{◌≡◌, ◌+◌, ◌^◌, ◌<◌, ◌≤◌, length, take, drop, slice_index};
ghost use Rattle.graph_rows.specs.Blocks.{row_in};
ghost use Rattle.batch_insert.specs.Padded.{padded};

use steal_pool::seal_block;

/// Makes a block of a row that stands behind its first word: its length, its ids, and zeros.
pub fn seal(out: &mut [u32], len: usize)
    requires room { len + 1 ≤ length out.old }
    requires small { len < 2 ^ 32 }
    ensures { out.new ≡ padded (length out.old) (take len (drop 1 out.old)) }
{
    seal_block(out, len, len);
}

/// The row in a block.
pub fn row_of(block: &[u32]) -> &[u32]
    requires { slice_index block.now 0 + 1 ≤ length block.now }
    ensures { result.now ≡ row_in block.now }
{
    &block[1..1 + block[0] as usize]
}
