//! And-inverter graphs with latches: literals, graphs, circuits and their meaning, and the closed
//! sets of gates over which latches move forward. Every other crate stands on the definitions of
//! this one.
//!
//! Of a circuit's least sets a frame takes the greatest, which holds all others, or the smallest,
//! which lies in all others.
//!
//! Tables by variable cover the variables from a first one on: entry `k` is that of variable `first
//! + k`. Those of a circuit begin at its first latch, so inputs take no entry: a short file can
//! have hundreds of millions of them.
#![tactic(auto)]

mod border;
mod build;
mod choice;
mod chosen_sets;
mod circuit;
mod closed;
mod graph;
mod holding;
mod keep;
mod laws;
mod literal;
mod mapping;
mod marks;
mod memory;
mod names;
mod noted;
mod numbering;
mod properties;
mod reading;
mod rising;
mod sequence;
mod shape;
mod tables;

pub use border::{count, mark_held};
pub use build::{AigBuilder, BuildError};
pub use choice::Choice;
pub use chosen_sets::chosen_law;
pub use circuit::Circuit;
pub use closed::{ClosedSet, is_closed};
pub use graph::{Aig, Gate, Latch, Reset, opening_literal, reset_value};
pub use holding::{HoldError, KeepError, hold, keep_by_names, keep_of};
pub use keep::Keep;
pub use laws::{set_laws, stream_laws, value_laws};
pub use literal::{Lit, MAX_VARIABLES};
pub use mapping::Substitute;
pub use marks::{mark_at, mark_variable, mark_variables, marks_of};
pub use memory::NoMemory;
pub use noted::Memory;
pub use numbering::{count_marks, marked_variables, number_marks, renumber};
pub use properties::{Props, Symbol, Symbols};
pub use reading::mark_read;
pub use sequence::Sequence;
pub use shape::{have_same_shape, property_literals};
pub use tables::entry;
