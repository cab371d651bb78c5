//! The list of a point with its leaf.
ghost use Rattle.std.specs.Prelude.{◌≡◌, ◌++◌, length};
ghost use Rattle.std.proofs.Props.{props};
ghost use Rattle.ann_defs.specs.Graph.{AreGoodRows, row_in};
ghost use Rattle.pivot_trees.specs.Leaves.{leaf_with};
ghost use Rattle.neighbour_lists.specs.ListRound.{nearest_of};
ghost use Rattle.neighbour_lists.specs.Offering.{ServesRows, nearest_short};

use crate::nearest::Nearest;
use crate::row_tasks::RowRule;
use bin_files::Points;
use graph_rows::FlatGraph;
use pivot_trees::Tree;

/// The lists of points, and a tree of these points. The new row of a point is the nearest of its list and its leaf.
#[derive(Drop)]
pub(crate) struct LeafRow<'a> {
    pub points: &'a Points,
    pub rows: &'a FlatGraph,
    pub tree: &'a Tree,
    ghost good: { AreGoodRows (length points.now.vectors) rows.now.width rows.now.rows } by { Prim.hlevel props },
    ghost grown: { tree.now.count ≡ length points.now.vectors },
}

impl<'a> RowRule for LeafRow<'a> {
    type Scratch = Nearest;

    ghost count = { λ r. length r.points.now.vectors };

    ghost most = { λ r. r.rows.now.width };

    ghost row_of = { λ r v. nearest_of r.points.now.vectors r.rows.now.width v (row_in r.rows.now.rows v ++ leaf_with r.tree.now.leaves v) };

    ghost serves = { λ r s. ServesRows (length r.points.now.vectors) r.rows.now.width s };

    ghost short = { λ r v _. nearest_short r.points.now.vectors r.rows.now.width v _ };

    fn degree(&self) -> u32 {
        self.rows.width()
    }

    fn write(&self, scratch: &mut Nearest, v: u32, out: &mut [u32]) -> usize {
        scratch.begin();
        scratch.offer(self.points, v, self.rows.at(v));
        scratch.offer(self.points, v, self.tree.leaf_of(v));
        scratch.write(v, out)
    }
}
