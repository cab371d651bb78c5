//! Small indexes, and the bytes that their files must have.
ghost use Rattle.std.specs.Prelude.{◌≡◌, ◌∷◌, [], IfOk};
ghost use Rattle.graph_rows.specs.View.{contents};
ghost use Rattle.graph_rows.specs.WellFormed.{IsWellFormed};

use ann_shelf::{MemShelf, NoMemory, Slip};
use graph_files::{FlatGraph, Index, IndexFault, IndexRule, Kind, Layer, read_index, write_index};
use std::alloc::Global;
use std::test::Fail;

pub(crate) const FOUR_POINTS: [u8; 68] = [
    80, 65, 78, 78, 1, 0, 0, 0, 1, 0, 0, 0, 4, 0, 0, 0, 1, 0, 0, 0, 2, 0, 0, 0, 0, 0, 0, 0, 1, 0,
    0, 0, 1, 0, 0, 0, 1, 0, 0, 0, 2, 0, 0, 0, 0, 0, 0, 0, 2, 0, 0, 0, 1, 0, 0, 0, 1, 0, 0, 0, 1, 0,
    0, 0, 1, 0, 0, 0,
];

pub(crate) const TWO_LAYERS: [u8; 80] = [
    80, 65, 78, 78, 1, 0, 0, 0, 2, 0, 0, 0, 4, 0, 0, 0, 1, 0, 0, 0, 1, 0, 0, 0, 1, 0, 0, 0, 2, 0,
    0, 0, 1, 0, 0, 0, 1, 0, 0, 0, 2, 0, 0, 0, 0, 0, 0, 0, 2, 0, 0, 0, 1, 0, 0, 0, 1, 0, 0, 0, 1, 0,
    0, 0, 1, 0, 0, 0, 1, 0, 0, 0, 1, 0, 0, 0, 0, 0, 0, 0,
];

fn four_rows(alloc: Global) -> Result<FlatGraph, NoMemory>
    ensures { IfOk result (λ g. g ≡ record { width = 2; rows = (1 ∷ []) ∷ (0 ∷ 2 ∷ []) ∷ (1 ∷ []) ∷ (1 ∷ []) ∷ [] }) }
{
    let mut graph = FlatGraph::new(alloc, 4, 2)?;
    graph.set_row(0, &[1]);
    graph.set_row(1, &[0, 2]);
    graph.set_row(2, &[1]);
    graph.set_row(3, &[1]);
    Ok(graph)
}

fn one_id(alloc: Global) -> Result<Layer, NoMemory>
    ensures { IfOk result (λ l. l ≡ record { width = 1; entries = (1, []) ∷ [] }) }
{
    let mut ids = Vec::new(alloc);
    ids.push(1u32)?;
    Layer::new(alloc, ids, 1)
}

fn four_points(alloc: Global) -> Result<Index, NoMemory>
    ensures { IfOk result (λ i. IsWellFormed (contents i)) }
{
    let base = four_rows(alloc)?;
    Ok(Index {
        kind: Kind::Vamana,
        count: 4,
        dim: 1,
        degree: 2,
        start: 0,
        base,
        upper: Vec::new(alloc),
        stamp: None,
    })
}

fn two_layers(alloc: Global) -> Result<Index, NoMemory>
    ensures { IfOk result (λ i. IsWellFormed (contents i)) }
{
    let base = four_rows(alloc)?;
    let layer = one_id(alloc)?;
    let mut upper = Vec::new(alloc);
    upper.push(layer)?;
    Ok(Index {
        kind: Kind::Hnsw,
        count: 4,
        dim: 1,
        degree: 1,
        start: 1,
        base,
        upper,
        stamp: None,
    })
}

// Whether an index is written as these bytes.
pub(crate) fn is_written_as(shelf: &mut MemShelf, index: &Index, bytes: &[u8]) -> bool
    requires { IsWellFormed (contents index.now) }
{
    write_index(shelf, "copy", index).is_ok() && shelf.bytes("copy") == Some(bytes)
}

// Whether four points have five edges, two of them in the longest row, and a copy of their rows as many.
fn has_five_edges(alloc: Global, index: &Index) -> Result<bool, NoMemory>
    requires { IsWellFormed (contents index.now) }
{
    let copy = index.base.copy(alloc)?;
    Ok(index.edges() == 5 && index.longest() == 2 && copy.edges() == 5)
}

#[test]
fn four_points_are_written_in_68_bytes(rt: HostRuntime) -> Result<(), Fail> {
    let index = four_points(rt.alloc())?;
    let mut shelf = MemShelf::new(rt.alloc());
    assert!(rt; is_written_as(&mut shelf, &index, &FOUR_POINTS));
    assert!(rt; has_five_edges(rt.alloc(), &index)?);
    Ok(())
}

#[test]
fn two_layers_are_written_in_80_bytes(rt: HostRuntime) -> Result<(), Fail> {
    let index = two_layers(rt.alloc())?;
    let mut shelf = MemShelf::new(rt.alloc());
    assert!(rt; is_written_as(&mut shelf, &index, &TWO_LAYERS));
    Ok(())
}

// Why a file of these bytes isn't read.
pub(crate) fn fault_of(alloc: Global, bytes: &[u8]) -> Option<IndexFault> {
    let mut shelf = MemShelf::new(alloc);
    if shelf.put("index", bytes).is_err() {
        return Some(IndexFault::NoMemory);
    }
    match read_index(alloc, &mut shelf, "index") {
        Ok(_) => None,
        Err(fault) => Some(fault),
    }
}

// Whether a file of these bytes is refused by a rule at a place.
pub(crate) fn is_malformed(alloc: Global, bytes: &[u8], place: u64, rule: IndexRule) -> bool {
    fault_of(alloc, bytes) == Some(IndexFault::Malformed { place, rule })
}

// Whether a file of four points is read as an index of a kind with so many further layers, by three calls: the file, its
// end, and the end once more; and then written back as it was.
pub(crate) fn is_written_back(alloc: Global, bytes: &[u8], kind: Kind, layers: usize) -> bool {
    let mut shelf = MemShelf::new(alloc);
    if shelf.put("index", bytes).is_err() {
        return false;
    }
    match read_index(alloc, &mut shelf, "index") {
        Ok(index) => {
            shelf.calls() == 3
                && index.kind == kind
                && index.base.count() == 4
                && index.upper.len() == layers
                && is_written_as(&mut shelf, &index, bytes)
        }
        Err(_) => false,
    }
}

#[test]
fn an_index_is_read_and_written_back(rt: HostRuntime) {
    assert!(rt; is_written_back(rt.alloc(), &FOUR_POINTS, Kind::Vamana, 0));
}

#[test]
fn an_index_of_lists_is_read_and_written_back(rt: HostRuntime) {
    let mut bytes = FOUR_POINTS;
    bytes[8] = 3;
    assert!(rt; is_written_back(rt.alloc(), &bytes, Kind::Nnd, 0));
}

// Whether a write whose second call fails is told.
fn tells_a_failed_write(alloc: Global, shelf: &mut MemShelf) -> Result<bool, NoMemory> {
    let index = four_points(alloc)?;
    shelf.fail_call(2)?;
    Ok(write_index(shelf, "index", &index) == Err(Slip::Failed))
}

// Whether a read of which this call fails is told.
fn tells_a_failed_read(alloc: Global, shelf: &mut MemShelf, read: u64) -> Result<bool, NoMemory> {
    let calls = shelf.calls();
    shelf.fail_call(calls.saturating_add(read))?;
    Ok(read_index(alloc, shelf, "index").err() == Some(IndexFault::Read))
}

#[test]
fn a_failed_call_is_told(rt: HostRuntime) -> Result<(), Fail> {
    let mut shelf = MemShelf::new(rt.alloc());
    assert!(rt; tells_a_failed_write(rt.alloc(), &mut shelf)?);
    shelf.put("index", &FOUR_POINTS)?;
    for read in 1..4u64 {
        assert!(rt;
            tells_a_failed_read(rt.alloc(), &mut shelf, read)?,
            "read {read}"
        );
    }
    Ok(())
}

#[test]
fn a_short_file_that_promises_much_is_refused_where_it_ends(rt: HostRuntime) {
    let mut bytes = FOUR_POINTS;
    bytes[12..16].copy_from_slice(&[0, 0, 64, 0]);
    bytes[20] = 31;
    assert!(rt; is_malformed(rt.alloc(), &bytes, 68, IndexRule::Short));
    bytes[48] = 0;
    assert!(rt; is_malformed(rt.alloc(), &bytes, 48, IndexRule::DoubleEdge));
}
