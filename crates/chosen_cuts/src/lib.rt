//! The chosen least set of a circuit, with its certificate if one is wanted.
//!
//! Flows of units over the circuit's gates find it, and the judge of `unit_flows` says whether they
//! did. If they didn't, `cut_cert` finds it by a maximum flow of the circuit's network.
//!
//! The routes of a certificate are the ways of the units if these pass the check of certificates,
//! and otherwise those of the maximum flow.
#![tactic(auto)]

mod least_set;
mod records;

pub use least_set::chosen_least_along;
pub use records::Records;
