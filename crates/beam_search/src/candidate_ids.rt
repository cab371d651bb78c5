//! The candidates of a point.
ghost use Rattle.std.specs.Prelude.{◌≡◌, ◌<◌, ◌≤◌, ◌++◌, length, nat_eq};
ghost use Rattle.std.specs.List.{All, IsDistinct};
ghost use Rattle.std.specs.Borrow.{sem};
ghost use Rattle.ann_defs.specs.Distance.{point};
ghost use Rattle.ann_defs.specs.Nearness.{near_of, ids_of};
ghost use Rattle.beam_search.specs.Lending.{LendsRoom, CanGather, listed};
ghost use Rattle.near_lists.specs.Gathered.{IsGathered};

use crate::scratch::Scratch;
use ann_defs::{MAX_DEGREE, Near};
use bin_files::Points;
use near_lists::{gather, next_stamp};

/// The ids that the last search visited and the `extra` ones, without `p`, each once, with their squared distances to
/// point `p`. They come in any order.
///
/// The last search was for point `p` of these points. For the new row of a point in DiskANN (Algorithm 3) `extra` is
/// the row that it has. It takes no memory. What is written into the result changes nothing else: the scratch stays as
/// it is, with what was found and visited.
pub fn candidates<'s>(
    scratch: &'s mut Scratch,
    points: &Points,
    p: u32,
    extra: &[u32],
) -> &'s mut [Near]
    requires p { p < length points.now.vectors }
    requires points { scratch.old.count ≡ length points.now.vectors }
    requires in_range { All (λ x. x.id < length points.now.vectors) scratch.old.last.visited }
    requires near { All (λ x. x ≡ near_of points.now.vectors (point points.now.vectors p) x.id) scratch.old.last.visited }
    requires extra { All (λ u. u < length points.now.vectors) extra.now }
    requires few { length extra.now ≤ MAX_DEGREE }
    ensures* stays { sem 𝓛 (LendsRoom scratch.entry result) }
    ensures gathered { IsGathered points.now.vectors p (ids_of scratch.old.last.visited ++ extra.now) result.now }
{
    lent_room(scratch, false, points, p, extra)
}

/// The ids that the last search found and the `extra` ones, without `p`, each once, with their squared distances to
/// point `p`. They come in any order.
///
/// The last search was for point `p` of these points. For the new row of a point in HNSW (Algorithm 1) the found are
/// what SEARCH-LAYER returns. It takes no memory. What is written into the result changes nothing else: the scratch
/// stays as it is, with what was found and visited.
pub fn found_candidates<'s>(
    scratch: &'s mut Scratch,
    points: &Points,
    p: u32,
    extra: &[u32],
) -> &'s mut [Near]
    requires p { p < length points.now.vectors }
    requires points { scratch.old.count ≡ length points.now.vectors }
    requires in_range { All (λ x. x.id < length points.now.vectors) scratch.old.last.found }
    requires near { All (λ x. x ≡ near_of points.now.vectors (point points.now.vectors p) x.id) scratch.old.last.found }
    requires distinct { IsDistinct nat_eq (ids_of scratch.old.last.found) }
    requires extra { All (λ u. u < length points.now.vectors) extra.now }
    requires few { length extra.now ≤ MAX_DEGREE }
    ensures* stays { sem 𝓛 (LendsRoom scratch.entry result) }
    ensures gathered { IsGathered points.now.vectors p (ids_of scratch.old.last.found ++ extra.now) result.now }
{
    lent_room(scratch, true, points, p, extra)
}

// What the last search found, or else what it visited, and the `extra` ids, gathered under a stamp later than the last.
fn lent_room<'s>(
    scratch: &'s mut Scratch,
    of_found: bool,
    points: &Points,
    p: u32,
    extra: &[u32],
) -> &'s mut [Near]
    requires p { p < length points.now.vectors }
    requires last { CanGather points.now.vectors p scratch.old of_found extra.now }
    requires extra { All (λ u. u < length points.now.vectors) extra.now }
    ensures* stays { sem 𝓛 (LendsRoom scratch.entry result) }
    ensures gathered { IsGathered points.now.vectors p (ids_of (listed of_found scratch.old.last) ++ extra.now) result.now }
{
    let found = &scratch.found[..scratch.found_len];
    let visited = &scratch.visited[..scratch.visited_len];
    let measured = one_of(of_found, found, visited);
    let marks = scratch.marks.as_mut_slice();
    let stamp = next_stamp(marks, scratch.last_stamp);
    let len = gather(points, p, measured, extra, &mut scratch.room, marks, stamp);
    scratch.last_stamp = stamp;
    scratch.room.slice_mut(..len)
}

// What was found, or else what was visited.
fn one_of<'a>(of_found: bool, found: &'a [Near], visited: &'a [Near]) -> &'a [Near]
    ensures { result.now ≡ listed of_found (record { found = found.now; visited = visited.now }) }
{
    if of_found { found } else { visited }
}
