//! An ASCII circuit file, after the AIGER 1.9 note: its lines and sections, its circuit, and the
//! first fault of other bytes. The readers of both spellings keep to these definitions, and are
//! made of the parts here.
#![tactic(auto)]

mod header;
mod laws;
mod order;
mod parts;
mod raw;

pub use header::Header;
pub use laws::{pieces_law, reading_law, round_trip_law};
pub use order::{Reads, are_in_file, cycle_laws, gate_order, in_order_law, order_laws};
pub use parts::{
    HeaderLine, Names, NumberLine, Places, PropertyLists, SymbolLine, SymbolText, netlist_law,
    props,
};
pub use raw::{RawGate, RawLatch, Section, SymbolKind};
