//! Structural cleaning of circuits: constant and duplicate latches, redundant gates, and what no
//! property depends on. The parts of a pass are lent to whatever merges latches by another rule. A
//! circuit is normalised if nothing is left to clean; laws say when a moved circuit is.
#![tactic(auto)]

mod cleaning;
mod firsts;
mod gates;
mod held;
mod kept;
mod latches;
mod laws;
mod low;
mod merged;
mod named;
mod names;
mod pairs;
mod pass;
mod places;
mod reached;
mod substitutes;
mod substitution;
mod tables;
mod tracing;
mod trim;

pub use cleaning::{Cleaned, clean, clean_over, composed, has_more, kept_twice};
pub use gates::{known_substitute, merge_gates};
pub use held::Held;
pub use kept::KeptGates;
pub use latches::{constant_of, own_literal};
pub use laws::{frame_law, normalised_laws};
pub use low::are_low_normalised;
pub use merged::replaced_circuit;
pub use named::clean_by_names;
pub use places::all_places;
pub use substitution::Substitution;
pub use tracing::{TracedPass, traced_pass};
