//! The commands on one circuit that simulate nothing for their user: `retime`, `dot`, `convert`,
//! `stat` and `verify`.
//!
//! Each reads files or standard input, and returns how the run ends.
#![tactic(auto)]

mod answer;
mod classes;
mod conversion;
mod drawable;
mod drawing;
mod replaying;
mod retiming;
mod scene;
mod statistics;
mod verification;

pub use conversion::convert;
pub use drawing::write_picture;
pub use retiming::print_retimed;
pub use statistics::print_statistics;
pub use verification::print_verification;
