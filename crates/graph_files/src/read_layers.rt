//! The layers above the first, read one after another.
ghost use Rattle.std.specs.Prelude.{◌≡◌, ◌+◌, ◌-◌, ◌*◌, ◌<◌, ◌≤◌, ◌^◌, [], length, map, nat_lt, IfOk, IfSome, IsErrOf};
ghost use Rattle.std.specs.List.{sum_by};
ghost use Rattle.ann_shelf.specs.Files.{bytes_of};
ghost use Rattle.ann_shelf.specs.Shown.{OnlyReads};
ghost use Rattle.graph_files.specs.Grammar.{layer_id_fault, layer_ids_at, layer_at, layers_at, members_fault, start_fault};
ghost use Rattle.graph_rows.specs.Index.{layer_ids, layer_rows};
ghost use Rattle.graph_rows.specs.Layers.{Layered};
ghost use Rattle.graph_rows.specs.Members.{holds, count_in, AreAscending, held_over, count_over};
ghost use Rattle.graph_files.specs.Reading.{AreBytesIn, AreMembers, Gives, Shows};
ghost use Rattle.graph_rows.specs.WellFormed.{AreFurtherLayers, IsFurtherLayer, layer_words};

use crate::header::Header;
use crate::read_rows::{among, read_graph};
use crate::window::Window;
use crate::{IndexFault, IndexRule, Layer};
use ann_defs::{MAX_DEGREE, MAX_POINTS, MAX_WORDS};
use ann_shelf::{Quantity, Shelf};
use graph_rows::Members;
use std::alloc::Global;

// The first rule that an id of a layer breaks.
fn fault_of_id(below: Members, least: u64, place: u64, id: u32) -> Option<IndexFault>
    requires { AreAscending below }
    ensures { result ≡ layer_id_fault (holds below.entry) place least id }
{
    if u64::from(id) < least || !below.hold(id) {
        return Some(IndexFault::Malformed {
            place,
            rule: IndexRule::LayerIds,
        });
    }
    None
}

// The first rule that the count of a layer breaks.
fn fault_of_count(degree: u32, below: u32, words: u64, place: u64, count: u32) -> Option<IndexFault>
    requires degree { degree ≤ MAX_DEGREE }
    requires below { below ≤ MAX_POINTS }
    requires words { words ≤ MAX_WORDS }
    ensures { result ≡ members_fault degree below words place count }
{
    if count == 0 {
        return Some(IndexFault::Malformed {
            place,
            rule: IndexRule::LayerIds,
        });
    }
    if below < count {
        return Some(IndexFault::Malformed {
            place,
            rule: IndexRule::LayerIds,
        });
    }
    let value = words + u64::from(count) * (u64::from(degree) + 1);
    if MAX_WORDS < value {
        return Some(IndexFault::TooLarge {
            name: Quantity::Words,
            value,
            limit: MAX_WORDS,
        });
    }
    None
}

// The start is to be among the ids of each layer.
fn fault_of_start(start: u32, place: u64, ids: &[u32]) -> Option<IndexFault>
    ensures { result ≡ start_fault start place ids.now }
{
    if among(start, ids) {
        None
    } else {
        Some(IndexFault::Malformed {
            place,
            rule: IndexRule::LayerIds,
        })
    }
}

// The ids of a layer, which ascend and are in the layer below.
fn read_members<F: Shelf>(
    shelf: &mut F,
    name: &str,
    window: &mut Window,
    below: Members,
    at: u64,
    ids: &mut [u32],
) -> Result<(), IndexFault>
    requires place { at + 1073741824 < 2 ^ 64 }
    requires count { length ids.old ≤ MAX_POINTS }
    requires ascending { AreAscending below }
    requires shows { IfSome (F.shown shelf.old).held (λ files. Shows (bytes_of files name.now) window.old) }
    ensures ids { IfSome (F.shown shelf.old).held (λ files. Gives (λ _. ids.new) result (layer_ids_at (holds below.entry) (bytes_of files name.now) (length ids.old) at 0 [])) }
    ensures sound { IfOk result (λ _. AreMembers (holds below.entry) (length ids.new) ids.new) }
    ensures bytes { IfOk result (λ _. IfSome (F.shown shelf.old).held (λ files. AreBytesIn (bytes_of files name.now) at (at + 4 * length ids.old))) }
    ensures shows { IfSome (F.shown shelf.old).held (λ files. Shows (bytes_of files name.now) window.new) }
    ensures only_reads { OnlyReads (F.shown shelf.old) (F.shown shelf.new) name.now (IsErrOf result IndexFault.Read) }
{
    let mut least = 0u64;
    for i in 0..ids.len() {
        let place = at + 4 * i as u64;
        let id = window.word(shelf, name, place)?;
        match fault_of_id(below, least, place, id) {
            Some(fault) => return Err(fault),
            None => {}
        }
        ids[i] = id;
        least = id as u64 + 1;
    }
    Ok(())
}

// The same, in memory that is taken for so many.
fn read_listed<F: Shelf>(
    alloc: Global,
    shelf: &mut F,
    name: &str,
    window: &mut Window,
    below: Members,
    at: u64,
    count: u32,
) -> Result<Vec<u32>, IndexFault>
    requires place { at + 1073741824 < 2 ^ 64 }
    requires count { count ≤ MAX_POINTS }
    requires ascending { AreAscending below }
    requires shows { IfSome (F.shown shelf.old).held (λ files. Shows (bytes_of files name.now) window.old) }
    ensures ids { IfSome (F.shown shelf.old).held (λ files. Gives (λ v. v.items) result (layer_ids_at (holds below.entry) (bytes_of files name.now) count at 0 [])) }
    ensures sound { IfOk result (λ v. AreMembers (holds below.entry) (length v.items) v.items) }
    ensures count { IfOk result (λ v. length v.items ≡ count) }
    ensures bytes { IfOk result (λ _. IfSome (F.shown shelf.old).held (λ files. AreBytesIn (bytes_of files name.now) at (at + 4 * count))) }
    ensures shows { IfSome (F.shown shelf.old).held (λ files. Shows (bytes_of files name.now) window.new) }
    ensures only_reads { OnlyReads (F.shown shelf.old) (F.shown shelf.new) name.now (IsErrOf result IndexFault.Read) }
{
    let Ok(mut ids) = vec![in alloc; 0u32; count as usize] else {
        return Err(IndexFault::NoMemory);
    };
    read_members(shelf, name, window, below, at, &mut ids)?;
    Ok(ids)
}

/// A layer: its count, its ids, its rows. Returns it with the place behind it.
pub(crate) fn read_layer<F: Shelf>(
    alloc: Global,
    shelf: &mut F,
    name: &str,
    window: &mut Window,
    start: u32,
    degree: u32,
    below: Members,
    words: u64,
    at: u64,
) -> Result<(Layer, u64), IndexFault>
    requires place { at + 8589934592 < 2 ^ 64 }
    requires degree { (1 ≤ degree) × (degree ≤ MAX_DEGREE) }
    requires count { count_in below ≤ MAX_POINTS }
    requires words { words ≤ MAX_WORDS }
    requires ascending { AreAscending below }
    requires shows { IfSome (F.shown shelf.old).held (λ files. Shows (bytes_of files name.now) window.old) }
    ensures layer { IfSome (F.shown shelf.old).held (λ files. Gives (λ x. (layer_ids x.0.entries, layer_rows x.0.entries, x.1)) result (layer_at start degree (holds below.entry) (count_in below.entry) words (bytes_of files name.now) at)) }
    ensures sound { IfOk result (λ x. IsFurtherLayer start degree (holds below.entry) x.0.entries) }
    ensures count { IfOk result (λ x. length x.0.entries ≤ MAX_POINTS) }
    ensures words { IfOk result (λ x. words + layer_words (length x.0.entries) degree ≤ MAX_WORDS) }
    ensures bytes { IfOk result (λ x. IfSome (F.shown shelf.old).held (λ files. AreBytesIn (bytes_of files name.now) at x.1)) }
    ensures end { IfOk result (λ x. x.1 ≤ at + 4294967296) }
    ensures shows { IfSome (F.shown shelf.old).held (λ files. Shows (bytes_of files name.now) window.new) }
    ensures only_reads { OnlyReads (F.shown shelf.old) (F.shown shelf.new) name.now (IsErrOf result IndexFault.Read) }
{
    let count = window.word(shelf, name, at)?;
    match fault_of_count(degree, below.count(), words, at, count) {
        Some(fault) => return Err(fault),
        None => {}
    }
    let ids = read_listed(alloc, shelf, name, window, below, at + 4, count)?;
    match fault_of_start(start, at, &ids) {
        Some(fault) => return Err(fault),
        None => {}
    }
    let graph = read_graph(
        alloc,
        shelf,
        name,
        window,
        Members::Listed(&ids),
        degree,
        at + 4 + 4 * count as u64,
    )?;
    Ok((Layer::of(ids, graph.0), graph.1))
}

// The ids of the topmost layer, or all below the count where there is none.
fn top<'a>(layers: &'a [Layer], count: u32) -> Members<'a>
    ensures held { holds result ≡ held_over (λ id. nat_lt id count) (map (λ (l : Layered). l.entries) layers.entry.now) }
    ensures count { count_in result ≡ count_over count (map (λ (l : Layered). l.entries) layers.entry.now) }
    ensures ascending { AreAscending result }
{
    match layers.last() {
        Some(layer) => Members::Listed(layer.ids()),
        None => Members::Below(count),
    }
}

/// The layers above the first, one after another, with the place behind them.
pub(crate) fn read_layers<F: Shelf>(
    alloc: Global,
    shelf: &mut F,
    name: &str,
    window: &mut Window,
    h: Header,
    words: u64,
    at: u64,
) -> Result<(Vec<Layer>, u64), IndexFault>
    requires place { at + 137438953472 < 2 ^ 64 }
    requires count { h.count ≤ MAX_POINTS }
    requires degree { (1 ≤ h.degree) × (h.degree ≤ MAX_DEGREE) }
    requires layers { (1 ≤ h.layers) × (h.layers ≤ 16) }
    requires words { words ≤ MAX_WORDS }
    requires shows { IfSome (F.shown shelf.old).held (λ files. Shows (bytes_of files name.now) window.old) }
    ensures layers { IfSome (F.shown shelf.old).held (λ files. Gives (λ x. (map (λ (l : Layered). l.entries) x.0.items, x.1)) result (layers_at h.start h.degree (λ id. nat_lt id h.count) h.count words (bytes_of files name.now) (h.layers - 1) at [])) }
    ensures sound { IfOk result (λ x. AreFurtherLayers h.start h.degree (λ id. nat_lt id h.count) (map (λ (l : Layered). l.entries) x.0.items)) }
    ensures count { IfOk result (λ x. length x.0.items + 1 ≡ h.layers) }
    ensures words { IfOk result (λ x. words + sum_by (λ layer. layer_words (length layer) h.degree) (map (λ (l : Layered). l.entries) x.0.items) ≤ MAX_WORDS) }
    ensures bytes { IfOk result (λ x. IfSome (F.shown shelf.old).held (λ files. AreBytesIn (bytes_of files name.now) at x.1)) }
    ensures end { IfOk result (λ x. x.1 ≤ at + 68719476736) }
    ensures shows { IfSome (F.shown shelf.old).held (λ files. Shows (bytes_of files name.now) window.new) }
    ensures only_reads { OnlyReads (F.shown shelf.old) (F.shown shelf.new) name.now (IsErrOf result IndexFault.Read) }
{
    let mut layers: Vec<Layer> = Vec::new(alloc);
    let mut place = at;
    let mut total = words;
    for i in 1..h.layers {
        let below = top(&layers, h.count);
        let read = read_layer(
            alloc, shelf, name, window, h.start, h.degree, below, total, place,
        )?;
        total += read.0.ids().len() as u64 * (h.degree as u64 + 1);
        place = read.1;
        match layers.push(read.0) {
            Ok(()) => {}
            Err(_) => return Err(IndexFault::NoMemory),
        }
    }
    Ok((layers, place))
}
