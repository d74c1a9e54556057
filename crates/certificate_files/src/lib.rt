//! Files of certificates. Each part of a file is about a round of a retiming: latches are merged,
//! if that was asked for, and then frames are taken.
//!
//! A part has the set of each frame, the size of its border, and the routes that show it to be
//! least. It may list the latches that were merged before its first frame.
#![tactic(auto)]

mod blocks;
mod fault;
mod file;
mod filling;
mod forms;
mod laws;
mod lines;
mod merged_lines;
mod parts;
mod reading;
mod words;
mod writing;

pub use fault::CertError;
pub use file::{CertFile, CertPart};
pub use laws::{rereading_law, round_trip_law};
pub use reading::read_cert;
pub use writing::write_cert;
