//! Proposals, merged rows, and what a batch changes in a layer.
ghost use Rattle.std.specs.Prelude.{◌≡◌, ◌<◌, ◌≤◌, [], ◌∷◌, length, IfOk};
ghost use Rattle.ann_defs.specs.Distance.{point};

use ann_defs::{Alpha, Near};
use ann_shelf::{FreeGate, NoMemory};
use batch_insert::{ChangedRows, Merging, Pair, Proposals, changed_rows, merged_row};
use bin_files::Points;
use graph_rows::{Layer, Rows};
use robust_prune::{NearestPrune, RobustPrune};
use std::alloc::Global;
use std::test::Fail;
use std::thread::Threads;
use steal_pool::{Post, Rounds, SerialRounds};

fn pair(target: u32, source: u32) -> Pair {
    Pair { target, source }
}

#[test]
fn pairs_are_grouped_by_target_each_once(rt: HostRuntime) -> Result<(), Fail> {
    let mut proposals = Proposals::with_room(rt.alloc(), 4)?;
    proposals.add(1, 3);
    proposals.add(1, 2);
    proposals.add(0, 2);
    proposals.add(1, 3);
    proposals.group();
    assert!(rt; proposals.targets() == 2);
    assert!(rt; (proposals.target(0), proposals.target(1)) == (0, 1));
    assert!(rt; proposals.sources(0) == [pair(0, 2)].as_slice());
    assert!(rt; proposals.sources(1) == [pair(1, 2), pair(1, 3)].as_slice());
    assert!(rt; (proposals.place(1), proposals.place(2)) == (Some(1), None));
    proposals.clear();
    proposals.add(3, 0);
    proposals.group();
    assert!(rt; proposals.targets() == 1);
    Ok(())
}

// The points 0, 10, 20, 30 and 40.
fn line(alloc: Global) -> Result<Points, NoMemory>
    ensures { IfOk result (λ p. length p.vectors ≡ 5) }
{
    Ok(Points::from_bytes(1, vec![in alloc; 0u8, 10, 20, 30, 40]?))
}

// The row 0 of point 1 with the sources 2 and 3, at most `degree` ids. The answer is its length.
fn merge_at_one(points: &Points, degree: u32, out: &mut [u32]) -> usize
    requires points { length points.now.vectors ≡ 5 }
    requires some { 1 ≤ degree }
    requires out { degree ≤ length out.old }
    ensures { result ≤ degree }
{
    let alpha = Alpha { num: 1, den: 1 };
    let pruning = RobustPrune {
        points,
        alpha,
        degree,
    };
    let mut room = [Near { dist: 0, id: 0 }; 4];
    let sources = [
        Pair {
            target: 1,
            source: 2,
        },
        Pair {
            target: 1,
            source: 3,
        },
    ];
    merged_row(&pruning, 1, &[0], 1, &sources, &mut room, out)
}

#[test]
fn sources_are_added_where_there_is_room_and_else_pruned(rt: HostRuntime) -> Result<(), Fail> {
    let points = line(rt.alloc())?;
    let mut out = [9u32; 3];
    let len = merge_at_one(&points, 3, &mut out);
    assert!(rt; &out[..len] == [0, 2, 3].as_slice());
    let len = merge_at_one(&points, 2, &mut out);
    assert!(rt; &out[..len] == [0, 2].as_slice());
    Ok(())
}

// Merges by the nearest, in a room of its own.
#[derive(Drop)]
struct NearestMerges<'a> {
    pruning: NearestPrune<'a>,
}

impl<'a> Merging for NearestMerges<'a> {
    ghost use Rattle.std.specs.Prelude.{◌+◌, ◌≤◌, true, length};
    ghost use Rattle.ann_defs.specs.BatchInsert.{merge_with};
    ghost use Rattle.ann_defs.proofs.GoodRows.{merged_good};
    ghost use Rattle.robust_prune.specs.Nearest.{nearest_row, nearest_without_good};

    type Scratch = Vec<Near>;

    ghost count = { λ m. length m.pruning.points.now.vectors };

    ghost most = { λ m. m.pruning.degree };

    ghost merged = { λ m t row sources. merge_with (λ u set. nearest_row m.pruning.points.now.vectors u set m.pruning.degree) m.pruning.degree t row sources };

    ghost knows = { λ m t row. true };

    ghost serves = { λ m s. length m.pruning.points.now.vectors + m.pruning.degree ≤ length s.items };

    fn degree(&self) -> u32 {
        self.pruning.degree
    }

    fn merge(
        &self,
        scratch: &mut Vec<Near>,
        target: u32,
        row: &[u32],
        sources: &[Pair],
        out: &mut [u32],
    ) -> usize {
        merged_row(
            &self.pruning,
            target,
            row,
            0,
            sources,
            scratch.as_mut_slice(),
            out,
        )
    }

    ghost good = { λ m t row sources at good are. merged_good (length m.pruning.points.now.vectors) m.pruning.degree t m.pruning.degree (λ u set. nearest_row m.pruning.points.now.vectors u set m.pruning.degree) row sources (λ set inside. nearest_without_good m.pruning.points.now.vectors t set m.pruning.degree inside) good are.inside are.distinct are.others };
}

// A layer of four of the points, with empty rows.
fn layer_of_four(alloc: Global) -> Result<Layer, NoMemory>
    ensures { IfOk result (λ l. l ≡ record { width = 2; entries = (0, []) ∷ (1, []) ∷ (2, []) ∷ (4, []) ∷ [] }) }
{
    Layer::new(alloc, vec![in alloc; 0u32, 1, 2, 4]?, 2)
}

// The new rows of three of them: each has 0 alone.
fn rows_of_three(alloc: Global) -> Result<Layer, NoMemory>
    ensures { IfOk result (λ l. l ≡ record { width = 2; entries = (1, 0 ∷ []) ∷ (2, 0 ∷ []) ∷ (4, 0 ∷ []) ∷ [] }) }
{
    let mut layer = Layer::new(alloc, vec![in alloc; 1u32, 2, 4]?, 2)?;
    layer.set_row(1, &[0]);
    layer.set_row(2, &[0]);
    layer.set_row(4, &[0]);
    Ok(layer)
}

// What these new rows change, with rows of at most 2.
fn change_of_three<R: Threads + Sync>(
    rt: &R,
    alloc: Global,
    points: &Points,
    old: &Layer,
    fresh: &Layer,
) -> Result<ChangedRows, NoMemory>
    requires points { length points.now.vectors ≡ 5 }
    requires old { old.now ≡ record { width = 2; entries = (0, []) ∷ (1, []) ∷ (2, []) ∷ (4, []) ∷ [] } }
    requires fresh { fresh.now ≡ record { width = 2; entries = (1, 0 ∷ []) ∷ (2, 0 ∷ []) ∷ (4, 0 ∷ []) ∷ [] } }
{
    let room = vec![in alloc; Near { dist: 0, id: 0 }; 7]?;
    let mut post = [Post::new(room)];
    let merging = NearestMerges {
        pruning: NearestPrune { points, degree: 2 },
    };
    let mut pool = SerialRounds::new();
    changed_rows(
        rt,
        alloc,
        &mut pool,
        old,
        &[1, 2, 4],
        fresh,
        &merging,
        &mut post,
        &FreeGate,
    )
}

// Whether four rows change, of which the first and the last are these.
fn are_four(changed: &ChangedRows, first: &[u32], last: &[u32]) -> bool {
    if changed.len() != 4 {
        return false;
    }
    let ids = [changed.id(0), changed.id(1), changed.id(2), changed.id(3)];
    ids == [0, 1, 2, 4] && changed.row(0) == first && changed.row(3) == last
}

// Whether a layer holds an id with this row.
fn has_row(layer: &Layer, id: u32, row: &[u32]) -> bool {
    layer.holds(id) && layer.row(id) == row
}

// Whether the rows of three points change four rows of the layer, as they were worked out.
fn changes_four<R: Threads + Sync>(
    rt: &R,
    alloc: Global,
    points: &Points,
    fresh: &Layer,
    layer: &mut Layer,
) -> Result<bool, NoMemory>
    requires points { length points.now.vectors ≡ 5 }
    requires fresh { fresh.now ≡ record { width = 2; entries = (1, 0 ∷ []) ∷ (2, 0 ∷ []) ∷ (4, 0 ∷ []) ∷ [] } }
    requires layer { layer.old ≡ record { width = 2; entries = (0, []) ∷ (1, []) ∷ (2, []) ∷ (4, []) ∷ [] } }
{
    let changed = change_of_three(rt, alloc, points, layer, fresh)?;
    changed.put_into_layer(layer);
    Ok(are_four(&changed, &[1, 2], &[0]))
}

#[test]
fn a_layer_changes_where_new_rows_or_their_targets_differ(rt: HostRuntime) -> Result<(), Fail> {
    let points = line(rt.alloc())?;
    let fresh = rows_of_three(rt.alloc())?;
    let mut layer = layer_of_four(rt.alloc())?;
    assert!(rt; changes_four(&rt, rt.alloc(), &points, &fresh, &mut layer)?);
    assert!(rt; has_row(&layer, 0, &[1, 2]) && has_row(&layer, 2, &[0]));
    Ok(())
}
