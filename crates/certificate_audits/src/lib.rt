//! Audits of retimed circuits by files of certificates, whoever found the sets.
//!
//! Each block is judged for the circuit that the blocks before it make. If it is confirmed, latches
//! move over its set and the circuit is cleaned.
//!
//! If a file says which latches were merged before the first frame, that is judged first. No block
//! is judged if a latch isn't shown to agree with what it reads as.
//!
//! A file may have further parts, which merge latches again and take further frames. Each is judged
//! for the circuit that the parts before it end in.
#![tactic(auto)]

mod judging;
mod laws;
mod merged;
mod moving;
mod outcome;
mod parts;
mod run;

pub use laws::{audit_law, certified_law, merged_audit_laws, parts_laws, replay_laws};
pub use merged::{replay_guessed, replay_merged};
pub use moving::Stage;
pub use outcome::{Audit, BlockObjection, End, Replay};
pub use parts::{PartsReplay, replay_parts};
pub use run::{audit_blocks, replay_blocks};
