//! A row joined with its sources.
ghost use Rattle.std.specs.Prelude.{◌≡◌, ◌+◌, ◌<◌, ◌≤◌, ◌++◌, not, true, length, take, drop};
ghost use Rattle.std.specs.List.{All, filter};
ghost use Rattle.ann_defs.specs.Distance.{point};
ghost use Rattle.ann_defs.specs.Nearness.{all_near, ids_of};
ghost use Rattle.ann_defs.specs.Graph.{has, IsGoodRow};
ghost use Rattle.ann_defs.specs.BatchInsert.{merge_with};
ghost use Rattle.batch_insert.specs.Sources.{sources_in, AreSources};

use crate::pair::Pair;
use ann_defs::Near;
use bin_files::Points;
use near_lists::near_to;
use robust_prune::Pruning;

/// The row of a target with the sources of its proposals.
///
/// Where row and sources together are at most the prune's greatest length, it is the row as it stands, followed by the
/// sources that aren't in it, in their order. Else all of them are pruned for the target (DiskANN, Algorithm 3, line
/// 8). `room` holds the candidates with their squared distances meanwhile; what it holds afterwards is not said. It
/// takes no memory and can't fail, and where row and sources are short enough, it takes no distance.
///
/// The first `settled` ids of the row are those that an earlier prune for the target left together, or none: a prune
/// doesn't test these against each other again.
///
/// Returns the length of the row, which stands at the front of `out`. Behind the row `out` stays as it was.
pub fn merged_row<P: Pruning>(
    pruning: &P,
    target: u32,
    row: &[u32],
    settled: usize,
    sources: &[Pair],
    room: &mut [Near],
    out: &mut [u32],
) -> usize
    requires target { target < length (P.vectors pruning.now) }
    requires row { IsGoodRow (length (P.vectors pruning.now)) (P.most pruning.now) target row.now }
    requires settled { settled ≤ length row.now }
    requires apart { P.apart pruning.now target (take settled row.now) ≡ true }
    requires sources { AreSources (length (P.vectors pruning.now)) target (sources_in sources.now) }
    requires room { length row.now + length sources.now ≤ length room.old }
    requires out { P.most pruning.now ≤ length out.old }
    ensures row { take result out.new ≡ merge_with (P.pruned pruning.now) (P.most pruning.now) target row.now (sources_in sources.now) }
    ensures rest { drop result out.new ≡ drop result out.old }
    ensures bound { result ≤ P.most pruning.now }
{
    let points = pruning.points();
    let degree = pruning.degree() as usize;
    if row.len() + sources.len() <= degree {
        return join_row(row, sources, out);
    }
    let from = lay_row(points, target, row, room);
    let len = lay_sources(points, target, row, sources, room, from);
    if len <= degree {
        copy_ids(&room[..len], out);
        len
    } else {
        pruning.prune_among(target, &mut room[..len], settled, out)
    }
}

// Writes the row and the sources that aren't in it to the front of `out`. Returns how many ids that is.
fn join_row(row: &[u32], sources: &[Pair], out: &mut [u32]) -> usize
    requires { length row.now + length sources.now ≤ length out.old }
    ensures list { take result out.new ≡ row.now ++ filter (λ s. not (has row.now s)) (sources_in sources.now) }
    ensures rest { drop result out.new ≡ drop result out.old }
    ensures bound { result ≤ length row.now + length sources.now }
{
    let from = copy_row(row, out);
    join_sources(row, sources, out, from)
}

// Copies the row to the front of `out`. Returns its length.
fn copy_row(row: &[u32], out: &mut [u32]) -> usize
    requires { length row.now ≤ length out.old }
    ensures list { take result out.new ≡ row.now }
    ensures rest { drop result out.new ≡ drop result out.old }
    ensures len { result ≡ length row.now }
{
    let mut len = 0;
    for id in row {
        out[len] = *id;
        len += 1;
    }
    len
}

// Writes, after the first `from`, the sources that aren't in the row. Returns how many ids there are then.
fn join_sources(row: &[u32], sources: &[Pair], out: &mut [u32], from: usize) -> usize
    requires { from + length sources.now ≤ length out.old }
    ensures list { take result out.new ≡ take from out.old ++ filter (λ s. not (has row.now s)) (sources_in sources.now) }
    ensures rest { drop result out.new ≡ drop result out.old }
    ensures least { from ≤ result }
    ensures bound { result ≤ from + length sources.now }
{
    let mut len = from;
    for pair in sources {
        let id = pair.source;
        if !has_id(row, id) {
            out[len] = id;
            len += 1;
        }
    }
    len
}

// Lays out the row at the front of the room. Returns its length.
fn lay_row(points: &Points, target: u32, row: &[u32], room: &mut [Near]) -> usize
    requires target { target < length points.now.vectors }
    requires row { All (λ v. v < length points.now.vectors) row.now }
    requires room { length row.now ≤ length room.old }
    ensures list { take result room.new ≡ all_near points.now.vectors (point points.now.vectors target) row.now }
    ensures len { result ≡ length row.now }
{
    let mut len = 0;
    for id in row {
        room[len] = near_to(points, points.at(target), *id);
        len += 1;
    }
    len
}

// Whether an id is in the row.
fn has_id(row: &[u32], id: u32) -> bool
    ensures { result ≡ has row.now id }
{
    row.iter().any(|x| *x == id)
}

// Lays out, after the first `from`, the sources that aren't in the row. Returns how many there are then.
fn lay_sources(
    points: &Points,
    target: u32,
    row: &[u32],
    sources: &[Pair],
    room: &mut [Near],
    from: usize,
) -> usize
    requires target { target < length points.now.vectors }
    requires sources { All (λ p. p.source < length points.now.vectors) sources.now }
    requires room { from + length sources.now ≤ length room.old }
    ensures list { take result room.new ≡
        take from room.old ++ all_near points.now.vectors (point points.now.vectors target) (filter (λ s. not (has row.now s)) (sources_in sources.now)) }
    ensures least { from ≤ result }
    ensures bound { result ≤ from + length sources.now }
{
    let mut len = from;
    for pair in sources {
        if !has_id(row, pair.source) {
            room[len] = near_to(points, points.at(target), pair.source);
            len += 1;
        }
    }
    len
}

// Copies the ids to the front of `out`.
fn copy_ids(nears: &[Near], out: &mut [u32])
    requires { length nears.now ≤ length out.old }
    ensures list { take (length nears.now) out.new ≡ ids_of nears.now }
    ensures rest { drop (length nears.now) out.new ≡ drop (length nears.now) out.old }
{
    for (i, x) in nears.iter().enumerate() {
        out[i] = x.id;
    }
}
