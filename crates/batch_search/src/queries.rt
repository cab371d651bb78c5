//! How the queries of an index are answered.
ghost use Rattle.std.specs.Prelude.{◌≡◌, ◌+◌, ◌*◌, ◌<◌, length};
ghost use Rattle.ann_defs.specs.Distance.{point};
ghost use Rattle.graph_rows.specs.View.{contents};
ghost use Rattle.batch_search.specs.Answers.{answer_of, answers_of};
ghost use Rattle.batch_search.specs.Blocks.{block_of};
ghost use Rattle.beam_search.specs.Serving.{Serves};

use crate::answering::Answering;
use crate::batch::QueryBatch;
use crate::block::write_answer;
use beam_search::{Scratch, found};
use layered_search::descend;

impl<'a> Answering for QueryBatch<'a> {
    type Scratch = Scratch;

    ghost answers = { λ b. answers_of b.points.now.vectors (contents b.index.now) b.beam b.k b.queries.now.vectors };

    ghost longest = { λ b. b.k };

    ghost serves = { λ b s. Serves (length b.points.now.vectors) b.beam s };

    fn count(&self) -> u32 {
        self.queries.count()
    }

    fn longest(&self) -> u32 {
        self.k
    }

    fn answer(&self, scratch: &mut Scratch, query: u32, out: &mut [u32]) {
        write_query(self, query, scratch, out);
    }
}

// Searches for one query, and writes the block of its answer.
fn write_query(batch: &QueryBatch, query: u32, scratch: &mut Scratch, out: &mut [u32])
    requires query { query < length batch.now.queries.now.vectors }
    requires serves { Serves (length batch.now.points.now.vectors) batch.now.beam scratch.old }
    requires out { length out.old ≡ 2 * batch.now.k + 1 }
    ensures out { out.new ≡ block_of (2 * batch.now.k + 1) (answer_of batch.now.points.now.vectors (contents batch.now.index.now) batch.now.beam batch.now.k (point batch.now.queries.now.vectors query)) }
    ensures serves { Serves (length batch.now.points.now.vectors) batch.now.beam scratch.new }
{
    let asked = batch.queries.at(query);
    descend(batch.points, batch.index, asked, batch.beam, scratch);
    let nears = found(scratch);
    let len = nears.len().min(batch.k as usize);
    write_answer(&nears[..len], out);
}
