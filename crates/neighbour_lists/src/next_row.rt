//! The list of a point after a round: NN-Descent, Algorithm 1, where a point's neighbours of neighbours join its own list.
ghost use Rattle.std.specs.Prelude.{◌≡◌, ◌<◌, ◌≤◌, length, map};
ghost use Rattle.std.specs.List.{range_with_len};
ghost use Rattle.std.proofs.Props.{props};
ghost use Rattle.ann_defs.specs.declared.limits.TheConstants.{MAX_DEGREE};
ghost use Rattle.ann_defs.specs.Graph.{AreGoodRows};
ghost use Rattle.neighbour_lists.specs.ListRound.{next_row};
ghost use Rattle.neighbour_lists.specs.Fresh.{ArePast, AreWithout, offered};
ghost use Rattle.neighbour_lists.specs.Reversed.{others_of};
ghost use Rattle.neighbour_lists.specs.Offering.{ServesRows, IsOffered, HasOffered, nearest_short};

use crate::hood_offers::offer_around;
use crate::hoods::Hoods;
use crate::nearest::Nearest;
use crate::news::News;
use crate::row_tasks::RowRule;
use bin_files::Points;
use graph_rows::FlatGraph;

/// The lists of points before a round, with their other reverse neighbours, and what is new and what is old in both since an earlier round. The new row of a
/// point is its list after the round.
///
/// A neighbour that isn't new offers only what is new to it: the rest was offered in that round, and would change nothing. Neighbourhoods are
/// read in place, and each point is measured once, however many of them hold it. Takes no memory.
#[derive(Drop)]
pub(crate) struct NextRow<'a> {
    pub points: &'a Points,
    pub rows: &'a FlatGraph,
    pub seen: &'a Hoods,
    pub news: &'a News,
    ghost good: { AreGoodRows (length points.now.vectors) rows.now.width rows.now.rows } by { Prim.hlevel props },
    ghost narrow: { rows.now.width ≤ MAX_DEGREE },
    ghost reversed: { news.now.others.rows ≡ map (others_of points.now.vectors rows.now.width rows.now.rows) (range_with_len 0 (length points.now.vectors)) },
    ghost new: { AreWithout (length points.now.vectors) seen.now.rows.rows seen.now.others.rows rows.now.rows news.now.others.rows news.now.fresh.rows.rows news.now.fresh.others.rows } by { Prim.hlevel props },
    ghost old: { AreWithout (length points.now.vectors) news.now.fresh.rows.rows news.now.fresh.others.rows rows.now.rows news.now.others.rows news.now.stale.rows.rows news.now.stale.others.rows } by { Prim.hlevel props },
    ghost past: { ArePast points.now.vectors rows.now.width rows.now.rows seen.now.rows.rows seen.now.others.rows } by { Prim.hlevel props },
}

impl<'a> RowRule for NextRow<'a> {
    type Scratch = Nearest;

    ghost count = { λ r. length r.points.now.vectors };

    ghost most = { λ r. r.rows.now.width };

    ghost row_of = { λ r. next_row r.points.now.vectors r.rows.now.width r.rows.now.rows };

    ghost serves = { λ r s. ServesRows (length r.points.now.vectors) r.rows.now.width s };

    ghost short = { λ r v _. nearest_short r.points.now.vectors r.rows.now.width v _ };

    fn degree(&self) -> u32 {
        self.rows.width()
    }

    fn write(&self, scratch: &mut Nearest, v: u32, out: &mut [u32]) -> usize {
        scratch.begin();
        self.offer_reached(scratch, v);
        scratch.write(v, out)
    }
}

impl<'a> NextRow<'a> {
    // Offers the list of v, of each old neighbour what is new to that one, and of each new neighbour all that it has.
    fn offer_reached(&self, scratch: &mut Nearest, v: u32)
        requires v { v < length self.now.points.now.vectors }
        requires count { length scratch.old.marks ≡ length self.now.points.now.vectors }
        requires offered { IsOffered self.now.points.now.vectors v scratch.old }
        ensures { HasOffered self.now.points.now.vectors v (offered self.now.rows.now.rows self.now.news.now.others.rows self.now.news.now.fresh.rows.rows self.now.news.now.fresh.others.rows self.now.news.now.stale.rows.rows self.now.news.now.stale.others.rows v) scratch.old scratch.new }
    {
        let (points, news) = (self.points, self.news);
        let fresh = &news.fresh;
        scratch.offer(points, v, self.rows.at(v));
        offer_around(points, scratch, v, &news.stale, &fresh.rows, &fresh.others);
        offer_around(points, scratch, v, fresh, self.rows, &news.others);
    }
}
