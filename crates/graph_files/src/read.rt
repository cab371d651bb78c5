//! Reading a file of an index.
ghost use Rattle.std.specs.Prelude.{◌≡◌, ℕ, ◌⊎◌, ◌+◌, ◌<◌, ◌≤◌, ◌^◌, length, None, Ok, IfOk, IfErr, IfSome, IsErrOf, not, ◌==◌, drop};
ghost use Rattle.ann_shelf.specs.Files.{bytes_of};
ghost use Rattle.ann_shelf.specs.Shown.{OnlyReads};
ghost use Rattle.graph_files.specs.Grammar.{body_at, index_in, layers_place};
ghost use Rattle.graph_files.specs.Header.{form_fault, limit_fault};
ghost use Rattle.graph_rows.specs.Index.{Contents, text_of};
ghost use Rattle.graph_files.specs.Reading.{AreBytesIn, Gives, Shows};
ghost use Rattle.graph_rows.specs.View.{kind_code, contents};
ghost use Rattle.graph_rows.specs.WellFormed.{IsWellFormed, IsWithinLimits};

use crate::header::{Header, bound_of, read_header};
use crate::read_layers::read_layers;
use crate::read_rows::read_graph;
use crate::read_stamp::read_stamp;
use crate::window::Window;
use crate::{Index, IndexFault, IndexRule, Kind};
use ann_shelf::Shelf;
use graph_rows::Members;
use std::alloc::Global;

// The kind of a code.
fn kind_of(code: u32) -> Kind
    requires { (1 ≤ code) × (code ≤ 3) }
    ensures { kind_code result ≡ code }
{
    if code == 1 {
        return Kind::Vamana;
    }
    if code == 2 {
        return Kind::Hnsw;
    }
    Kind::Nnd
}

// Where the layers begin.
fn place_of_layers(version: u32) -> u64
    ensures value { result ≡ layers_place version }
    ensures near { result ≤ 136 }
{
    if version == 1 { 32 } else { 136 }
}

// Whether something stands at a place or behind it.
fn read_end<F: Shelf>(
    shelf: &mut F,
    name: &str,
    window: &mut Window,
    at: u64,
) -> Result<bool, IndexFault>
    requires place { at + 16384 < 2 ^ 64 }
    ensures end { IfOk result (λ more. IfSome (F.shown shelf.old).held (λ files. more ≡ not (length (drop at (bytes_of files name.now)) == 0))) }
    ensures outside { IfErr result (λ e. (e ≡ IndexFault.Read) ⊎ (e ≡ IndexFault.NoMemory)) }
    ensures only_reads { OnlyReads (F.shown shelf.old) (F.shown shelf.new) name.now (IsErrOf result IndexFault.Read) }
{
    window.move_to(shelf, name, at)?;
    Ok(window.len != 0)
}

// All layers, and nothing behind them: the index but for its stamp.
fn read_body<F: Shelf>(
    alloc: Global,
    shelf: &mut F,
    name: &str,
    window: &mut Window,
    h: Header,
    at: u64,
) -> Result<Index, IndexFault>
    requires place { at + 274877906944 < 2 ^ 64 }
    requires form { form_fault h ≡ None }
    requires limits { limit_fault h ≡ None }
    requires shows { IfSome (F.shown shelf.old).held (λ files. Shows (bytes_of files name.now) window.old) }
    ensures body { IfSome (F.shown shelf.old).held (λ files. Gives contents result (body_at h (bytes_of files name.now) at)) }
    ensures well_formed { IfOk result (λ i. IsWellFormed (contents i)) }
    ensures limits { IfOk result (λ i. IsWithinLimits (contents i)) }
    ensures kind { IfOk result (λ i. kind_code i.kind ≡ h.kind) }
    ensures bytes { IfOk result (λ _. IfSome (F.shown shelf.old).held (λ files. (end : ℕ) × AreBytesIn (bytes_of files name.now) at end × (length (bytes_of files name.now) ≤ end))) }
    ensures only_reads { OnlyReads (F.shown shelf.old) (F.shown shelf.new) name.now (IsErrOf result IndexFault.Read) }
{
    let bound = bound_of(h.kind, h.degree);
    let base = read_graph(
        alloc,
        shelf,
        name,
        window,
        Members::Below(h.count),
        bound,
        at,
    )?;
    let upper = read_layers(
        alloc,
        shelf,
        name,
        window,
        h,
        h.count as u64 * (bound as u64 + 1),
        base.1,
    )?;
    let more = read_end(shelf, name, window, upper.1)?;
    if more {
        return Err(IndexFault::Malformed {
            place: upper.1,
            rule: IndexRule::Trailing,
        });
    }
    Ok(Index {
        kind: kind_of(h.kind),
        count: h.count,
        dim: h.dim,
        degree: h.degree,
        start: h.start,
        base: base.0,
        upper: upper.0,
        stamp: None,
    })
}

/// Reads the file of an index.
///
/// The rules of the format are checked in its order, and the call fails with the first that is broken and its byte place.
/// The memory of a layer is taken once, after its count was checked and only if the file is long enough to hold a word of
/// each row; of a shorter file the rows are read and not kept. The file is read through a window of 16 KiB on the
/// stack, so rows cost no call each. The ids of a row that the window shows whole are tested many at once. To find an id
/// that stands twice in a row, each is marked by its remainder in another 16 KiB on the stack, and only where the row has
/// set that mark already the id is compared with those before it.
pub fn read_index<F: Shelf>(alloc: Global, shelf: &mut F, name: &str) -> Result<Index, IndexFault>
    // Where the file's bytes are told, the result is what they hold or their first fault; a failed read or want of memory may stand in its place.
    ensures index { IfSome (F.shown shelf.old).held (λ files. Gives contents result (index_in (bytes_of files name.now))) }
    // An index that is read can be written, searched and built on.
    ensures well_formed { IfOk result (λ i. IsWellFormed (contents i)) }
    ensures limits { IfOk result (λ i. IsWithinLimits (contents i)) }
    // The file is the text of what is read.
    ensures text { IfOk result (λ i. IfSome (F.shown shelf.old).held (λ files. bytes_of files name.now ≡ text_of (contents i))) }
    // Where the file is the text of a well-formed index within the limits, this index is returned.
    ensures complete { IfSome (F.shown shelf.old).held (λ files. (j : Contents) → IsWellFormed j → IsWithinLimits j → text_of j ≡ bytes_of files name.now → Gives contents result (Ok j)) }
    // The file is only read; the call fails with `Read` only where the count rose.
    ensures only_reads { OnlyReads (F.shown shelf.old) (F.shown shelf.new) name.now (IsErrOf result IndexFault.Read) }
{
    let mut window = Window::new();
    let header = read_header(shelf, name, &mut window)?;
    let stamp = read_stamp(&window, header)?;
    let place = place_of_layers(header.version);
    let index = read_body(alloc, shelf, name, &mut window, header, place)?;
    Ok(index.with_stamp(stamp))
}
