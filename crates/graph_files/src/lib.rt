//! The files of indexes: their grammar, a reader and a writer.
//!
//! `write_index` writes the file of an index, of version 2 where it has a stamp and else of version 1, whose bytes are
//! `text_of` in `graph_rows`' `specs/Index.antt`,
//! and `read_index` reads one, or names the first rule of `specs/Grammar.antt` that the file breaks with its byte
//! place. The types of an index are those of `graph_rows`, and stand here too.
#![tactic(auto)]

mod fault;
mod header;
mod pieces;
mod put;
mod read;
mod read_layers;
mod read_rows;
mod read_stamp;
mod row_room;
mod shown_row;
mod window;
mod words;
mod write;

pub use fault::{IndexFault, IndexRule};
pub use graph_rows::{FlatGraph, Index, Kind, Layer, Rows, Stamp};
pub use read::read_index;
pub use write::write_index;
