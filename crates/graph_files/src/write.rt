//! Writing a file of an index.
ghost use Rattle.std.specs.Prelude.{◌≡◌, ◌≤◌, ◌<◌, [], Some, flat_map, vec_len, IfSome, OnOk, OnErr, IsErrOf};
ghost use Rattle.ann_shelf.specs.Files.{with_file, Grows};
ghost use Rattle.ann_shelf.specs.Shown.{OnlyWrites};
ghost use Rattle.graph_rows.specs.Index.{words, rows_bytes, layer_bytes, layers_bytes, version_of, header_words, text_of};
ghost use Rattle.graph_rows.specs.Layers.{Layered};
ghost use Rattle.graph_rows.specs.View.{kind_code, contents};
ghost use Rattle.graph_rows.specs.WellFormed.{IsWellFormed};
ghost use Rattle.graph_files.specs.Writing.{pending, Adds};

use crate::header::MAGIC;
use crate::pieces::Pieces;
use crate::{FlatGraph, Index, Kind, Layer, Stamp};
use ann_shelf::{Shelf, Slip};

// A kind's code in a file.
fn code_of(kind: Kind) -> u32
    ensures { result ≡ kind_code kind }
{
    match kind {
        Kind::Vamana => 1,
        Kind::Hnsw => 2,
        Kind::Nnd => 3,
    }
}

// The version of an index: 2 where it has a stamp.
fn version_of(stamp: &Option<Stamp>) -> u32
    ensures { result ≡ version_of stamp.now }
{
    match stamp {
        Some(_) => 2,
        None => 1,
    }
}

// The words before the layers.
fn header_of(index: &Index) -> [u32; 8]
    requires { vec_len index.now.upper ≤ 15 }
    ensures { result ≡ header_words (contents index.now) }
{
    let layers = 1 + index.upper.len() as u32;
    [
        MAGIC,
        version_of(&index.stamp),
        code_of(index.kind),
        index.count,
        index.dim,
        index.degree,
        index.start,
        layers,
    ]
}

// The numbers one after another.
fn write_words<F: Shelf>(
    pieces: &mut Pieces,
    shelf: &mut F,
    name: &str,
    ns: &[u32],
) -> Result<(), Slip>
    ensures ok { OnOk result (Adds (F.shown shelf.old).begun (F.shown shelf.new).begun name.now (pending pieces.old) (pending pieces.new) (words ns.now)) }
    ensures held { (F.shown shelf.new).held ≡ (F.shown shelf.old).held }
    ensures only_writes { OnlyWrites (F.shown shelf.old) (F.shown shelf.new) name.now (IsErrOf result Slip.Failed) }
{
    for n in ns {
        pieces.put(shelf, name, *n)?;
    }
    Ok(())
}

// The rows one after another.
fn write_rows<F: Shelf>(
    pieces: &mut Pieces,
    shelf: &mut F,
    name: &str,
    graph: &FlatGraph,
) -> Result<(), Slip>
    ensures ok { OnOk result (Adds (F.shown shelf.old).begun (F.shown shelf.new).begun name.now (pending pieces.old) (pending pieces.new) (rows_bytes graph.now.rows)) }
    ensures held { (F.shown shelf.new).held ≡ (F.shown shelf.old).held }
    ensures only_writes { OnlyWrites (F.shown shelf.old) (F.shown shelf.new) name.now (IsErrOf result Slip.Failed) }
{
    for i in 0..graph.count() {
        pieces.put_row(shelf, name, graph.at(i))?;
    }
    Ok(())
}

// A further layer: its count, its ids, its rows.
fn write_layer<F: Shelf>(
    pieces: &mut Pieces,
    shelf: &mut F,
    name: &str,
    layer: &Layer,
) -> Result<(), Slip>
    ensures ok { OnOk result (Adds (F.shown shelf.old).begun (F.shown shelf.new).begun name.now (pending pieces.old) (pending pieces.new) (layer_bytes layer.now.entries)) }
    ensures held { (F.shown shelf.new).held ≡ (F.shown shelf.old).held }
    ensures only_writes { OnlyWrites (F.shown shelf.old) (F.shown shelf.new) name.now (IsErrOf result Slip.Failed) }
{
    pieces.put(shelf, name, layer.ids().len() as u32)?;
    write_words(pieces, shelf, name, layer.ids())?;
    write_rows(pieces, shelf, name, layer.graph())
}

// The further layers one after another.
fn write_layers<F: Shelf>(
    pieces: &mut Pieces,
    shelf: &mut F,
    name: &str,
    layers: &[Layer],
) -> Result<(), Slip>
    ensures ok { OnOk result (Adds (F.shown shelf.old).begun (F.shown shelf.new).begun name.now (pending pieces.old) (pending pieces.new) (flat_map (λ (l : Layered). layer_bytes l.entries) layers.now)) }
    ensures held { (F.shown shelf.new).held ≡ (F.shown shelf.old).held }
    ensures only_writes { OnlyWrites (F.shown shelf.old) (F.shown shelf.new) name.now (IsErrOf result Slip.Failed) }
{
    for layer in layers {
        write_layer(pieces, shelf, name, layer)?;
    }
    Ok(())
}

// All that stands after the header.
fn write_body<F: Shelf>(
    pieces: &mut Pieces,
    shelf: &mut F,
    name: &str,
    index: &Index,
) -> Result<(), Slip>
    ensures ok { OnOk result (Adds (F.shown shelf.old).begun (F.shown shelf.new).begun name.now (pending pieces.old) (pending pieces.new) (layers_bytes (contents index.now).layers)) }
    ensures held { (F.shown shelf.new).held ≡ (F.shown shelf.old).held }
    ensures only_writes { OnlyWrites (F.shown shelf.old) (F.shown shelf.new) name.now (IsErrOf result Slip.Failed) }
{
    write_rows(pieces, shelf, name, &index.base)?;
    write_layers(pieces, shelf, name, &index.upper)
}

// The whole text of an index, after what is begun.
fn write_text<F: Shelf>(shelf: &mut F, name: &str, index: &Index) -> Result<(), Slip>
    requires { IsWellFormed (contents index.now) }
    ensures ok { OnOk result (Grows (F.shown shelf.old).begun (F.shown shelf.new).begun name.now (text_of (contents index.now))) }
    ensures held { (F.shown shelf.new).held ≡ (F.shown shelf.old).held }
    ensures only_writes { OnlyWrites (F.shown shelf.old) (F.shown shelf.new) name.now (IsErrOf result Slip.Failed) }
{
    let mut pieces = Pieces::new();
    pieces.push_all(&header_of(index));
    pieces.push_mark(&index.stamp);
    write_body(&mut pieces, shelf, name, index)?;
    pieces.flush(shelf, name)
}

/// Writes the file of an index: begins it, appends the index's one text, and finishes it.
///
/// It takes no memory of its own but a buffer of 16 KiB on the stack; `NoMemory` can only come from the shelf. After a
/// refusal every file is as it was.
pub fn write_index<F: Shelf>(shelf: &mut F, name: &str, index: &Index) -> Result<(), Slip>
    requires { IsWellFormed (contents index.now) }
    ensures ok { OnOk result (IfSome (F.shown shelf.old).held (λ files. (F.shown shelf.new).held ≡ Some (with_file files name.now (text_of (contents index.now))))) }
    ensures err { OnErr result ((F.shown shelf.new).held ≡ (F.shown shelf.old).held) }
    ensures only_writes { OnlyWrites (F.shown shelf.old) (F.shown shelf.new) name.now (IsErrOf result Slip.Failed) }
{
    shelf.begin(name)?;
    write_text(shelf, name, index)?;
    shelf.finish(name)
}
