//! Answers in blocks.
ghost use Rattle.std.specs.Prelude.{◌≡◌, ◌+◌, ◌*◌, ◌≤◌, length, take, slice_index};
ghost use Rattle.ann_defs.specs.declared.limits.TheConstants.{MAX_BEAM};
ghost use Rattle.batch_search.specs.Blocks.{block_of, answer_in, HasAnswer};

use ann_defs::Near;

/// Writes an answer into a block: how many there are, each id with its squared distance, and zeros.
pub fn write_answer(nears: &[Near], out: &mut [u32])
    requires small { length nears.now ≤ MAX_BEAM }
    requires room { 2 * length nears.now + 1 ≤ length out.old }
    ensures { out.new ≡ block_of (length out.old) nears.now }
{
    out[0] = nears.len() as u32;
    for at in 0..nears.len() {
        let near = nears[at];
        out[2 * at + 1] = near.id;
        out[2 * at + 2] = near.dist;
    }
    for i in 2 * nears.len() + 1..out.len() {
        out[i] = 0;
    }
}

/// Reads the answer in a block. Returns how many there are.
pub(crate) fn read_answer(block: &[u32], out: &mut [Near]) -> usize
    requires whole { HasAnswer block.now }
    requires room { length (answer_in block.now) ≤ length out.old }
    ensures answer { take result out.new ≡ answer_in block.now }
    ensures count { result ≡ length (answer_in block.now) }
{
    let len = block[0] as usize;
    for at in 0..len {
        out[at] = Near {
            dist: block[2 * at + 2],
            id: block[2 * at + 1],
        };
    }
    len
}
