//! The deltas of binary AIGER files: numbers as groups of seven bits, the lowest first. Every byte
//! but a delta's last has its top bit set. A delta is read byte by byte, so it may be cut anywhere,
//! and written as briefly as possible.
mod decode;
mod encode;

pub use decode::{DeltaError, DeltaReader};
pub use encode::push_delta;
