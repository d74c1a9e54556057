//! Witnesses of AIGER's tools, which say how a circuit comes to a bad state. They are read, printed
//! and simulated, and carried back from a retimed circuit to the one that it was made of.
#![tactic(auto)]

mod carrying;
mod confirming;
mod fault;
mod free;
mod laws;
mod lines;
mod marks;
mod reached;
mod reading;
mod rows;
mod runs;
mod settling;
mod widths;
mod witness;
mod words;
mod writing;

pub use carrying::carried_back;
pub use confirming::{Confirmed, Objection, confirm};
pub use fault::WitnessError;
pub use laws::witness_laws;
pub use reading::read_witness;
pub use widths::Widths;
pub use witness::{Digit, Property, Reached, Witness};
pub use writing::{print_objection, print_witness};
