//! What the readers of both spellings are made of.
//!
//! Lines come to a reader in pieces, and of a line only what is needed is held. Numbers are held as
//! far as 32 bits and nine of them go, so a number with a million leading zeros costs nothing. Of
//! bytes only names are held. Names by kind and position, and the literals of properties, are
//! collected. They become parts of a circuit at the end of a file.
//!
//! Variables of a file are mostly small and dense, so a table by variable serves nearly all of
//! their places. One that is far above the number of variables so far is hashed, since a number
//! that a file states asks for no room.

mod begun;
mod by_kind;
mod header_line;
mod kind_names;
mod laws;
mod lists;
mod names;
mod numbers;
mod places;
mod symbols;

pub use by_kind::props;
pub use header_line::HeaderLine;
pub use laws::netlist_law;
pub use lists::PropertyLists;
pub use names::Names;
pub use numbers::NumberLine;
pub use places::Places;
pub use symbols::{SymbolLine, SymbolText};
