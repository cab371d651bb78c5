//! An id with its distance.
ghost use Rattle.std.specs.Prelude.{◌≡◌, ◌<◌, length};
ghost use Rattle.ann_defs.specs.Distance.{dim_of};
ghost use Rattle.ann_defs.specs.Nearness.{near_of};

use ann_defs::Near;
use bin_files::Points;
use lane_distance::dist;

/// The id with the squared distance of its point to the query.
pub fn near_to(points: &Points, query: &[u8], id: u32) -> Near
    requires query { length query.now ≡ dim_of points.now.vectors }
    requires id { id < length points.now.vectors }
    ensures { result ≡ near_of points.now.vectors query.now id }
{
    Near {
        dist: dist(query, points.at(id)),
        id,
    }
}
