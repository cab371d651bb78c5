//! The new rows of points, as tasks.
ghost use Rattle.std.specs.Prelude.{◌≡◌, ◌+◌, ◌*◌, ◌<◌, ◌≤◌, length, replicate};
ghost use Rattle.std.specs.List.{All};
ghost use Rattle.hnsw_build.specs.Layering.{level_in, top_of};
ghost use Rattle.hnsw_build.specs.Grown.{build_in, layers_in, ServesIn};
ghost use Rattle.hnsw_build.specs.Wanted.{block_of_point, point_blocks};

use crate::layers::Layers;
use crate::point_rows::write_rows;
use beam_search::Scratch;
use steal_pool::{LEAST_SEARCHES, Work};

/// A task for each of at most 4,096 points: its new rows in all layers that it is in, before zeros for the layers
/// above.
#[derive(Drop)]
pub(crate) struct NewRows<'a> {
    pub layers: &'a Layers<'a>,
    pub ids: &'a [u32],
    ghost inside: { All (λ p. p < length layers.now.plan.now.points.now.vectors) ids.now },
    ghost few: { length ids.now ≤ 4096 },
}

impl<'a> Work for NewRows<'a> {
    type Scratch = Scratch;

    ghost want = { λ w. point_blocks (build_in w.layers.now) (layers_in w.layers.now) w.ids.now };

    ghost wide = { λ w. (top_of w.layers.now.plan.now.levels.items + 1) * (w.layers.now.plan.now.settings.degree + 1) };

    ghost serves = { λ w s. ServesIn w.layers.now s };

    fn tasks(&self) -> u32 {
        self.ids.len() as u32
    }

    fn width(&self) -> u32 {
        let plan = self.layers.plan;
        (u32::from(plan.top()) + 1) * (plan.settings.degree + 1)
    }

    fn least(&self) -> u32 {
        LEAST_SEARCHES
    }

    fn run(&self, scratch: &mut Scratch, task: u32, out: &mut [u32]) {
        write_block(self.layers, self.ids[task as usize], scratch, out);
    }
}

// Writes the block of a point: its new rows, and zeros.
fn write_block(layers: &Layers, p: u32, scratch: &mut Scratch, out: &mut [u32])
    requires p { p < length layers.now.plan.now.points.now.vectors }
    requires serves { ServesIn layers.now scratch.old }
    requires out { length out.old ≡ (top_of layers.now.plan.now.levels.items + 1) * (layers.now.plan.now.settings.degree + 1) }
    ensures out { out.new ≡ block_of_point (build_in layers.now) (layers_in layers.now) p }
    ensures serves { ServesIn layers.now scratch.new }
{
    let len = rows_len(layers, p);
    let (rows, rest) = out.split_at_mut(len);
    write_rows(layers, p, scratch, rows);
    clear(rest);
}

/// How many words the new rows of a point have.
pub(crate) fn rows_len(layers: &Layers, p: u32) -> usize
    requires { p < length layers.now.plan.now.points.now.vectors }
    ensures { result ≡ (level_in layers.now.plan.now.levels.items p + 1) * (layers.now.plan.now.settings.degree + 1) }
{
    let level = usize::from(layers.plan.levels[p as usize]);
    (level + 1) * (layers.plan.settings.degree as usize + 1)
}

// Writes zeros.
fn clear(words: &mut [u32])
    ensures { words.new ≡ replicate (length words.old) 0 }
{
    for word in words.iter_mut() {
        *word = 0;
    }
}
