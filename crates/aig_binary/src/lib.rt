//! Circuits of either spelling: the spelling of bytes, the circuit that is read of them, and the
//! text of a circuit in either. They are read whole, in pieces, or from a reader with no copy of
//! its bytes kept. A reader is read to its end also after a fault. Binary text is written here,
//! through a buffer that takes no memory.
#![tactic(auto)]

mod any_reader;
mod begin;
mod binary_text;
mod circuit_reader;
mod first_bytes;
mod laws;
mod letters;
mod limits;
mod pieces;
mod read;
mod reading;
mod rest;
mod writing;

pub use any_reader::AnyReader;
pub use binary_file::{AigReader, read_aig};
pub use binary_text::write_aig;
pub use file_words::Spelling;
pub use first_bytes::spelling;
pub use laws::{round_trip_law, spelling_law};
pub use limits::read_limits_law;
pub use pieces::CircuitReader;
pub use read::read_any;
pub use reading::{SpeltCircuit, read_circuit};
pub use writing::write;
