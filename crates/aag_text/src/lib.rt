//! Circuits in ASCII: the reader, whole or in pieces, the writer, the faults, counted readers and
//! writers, and the laws of what a file is. Of an open line the reader holds only its numbers, or
//! the name of a symbol.
//!
//! The writer goes through a buffer that takes no memory. The binary writer has some parts in
//! common with it: counts, properties, symbols.
#![tactic(auto)]

mod circuit;
mod counts;
mod graph;
mod header;
mod items;
mod lines;
mod properties;
mod read;
mod reader;
mod sections;
mod symbols;
mod writing;

pub use ascii_file::{pieces_law, reading_law, round_trip_law};
pub use counted_io::{Counted, CountedRead, CountedWrite, FailAfter, Failure, OneByte, WriteError};
pub use counts::put_counts;
pub use file_words::ReadError;
pub use properties::put_properties;
pub use read::read_aag;
pub use reader::AagReader;
pub use sections::Sections;
pub use symbols::put_symbols;
pub use writing::write_aag;
