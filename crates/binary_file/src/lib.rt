//! What a binary circuit file is, after the AIGER 1.9 note: its lines, deltas and circuit, and the
//! first fault of other bytes. What it has in common with an ASCII file is that of `ascii_file`.
//! Readers and writers share the code of deltas.
//!
//! The reader takes its bytes in pieces, and the items one after another. A file's literals are its
//! circuit's own, so items are kept as the circuit keeps them: 8 bytes a gate, 8 a latch.
#![tactic(auto)]

mod delta;
mod deltas;
mod header;
mod items;
mod laws;
mod opened;
mod reader;
mod sections;
mod stage;

pub use deltas::{DeltaError, DeltaReader, push_delta};
pub use laws::{counts_law, delta_laws, pieces_law, reading_law};
pub use reader::{AigReader, read_aig};
pub use sections::Sections;
