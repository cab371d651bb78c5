//! The entry point.
ghost use Rattle.std.specs.Prelude.{◌≡◌, ◌<◌, length};
ghost use Rattle.std.specs.List.{All};
ghost use Rattle.hnsw_build.specs.Layering.{top_of, entry_of};

/// The first id of the order whose level is the greatest.
pub(crate) fn entry_point(order: &[u32], levels: &[u8]) -> u32
    requires { All (λ u. u < length levels.now) order.now }
    ensures { result ≡ entry_of levels.now order.now }
{
    let top = top_level(levels);
    for id in order {
        if levels[*id as usize] == top {
            return *id;
        }
    }
    0
}

// The greatest level.
fn top_level(levels: &[u8]) -> u8
    ensures { result ≡ top_of levels.now }
{
    let mut top = 0;
    for level in levels {
        top = top.max(*level);
    }
    top
}
