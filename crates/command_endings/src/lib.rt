//! What the commands share. Options become a run, latches are held, a run shows what it does while
//! it goes on. A command ends with text or with an object of JSON.
#![tactic(auto)]

mod endings;
mod failures;
mod findings;
mod name_files;
mod names;
mod options;
mod progress;
mod writing;

pub use endings::ended;
pub use failures::{fault_of, print_failure};
pub use findings::{
    print_audit, print_batch, print_difference, print_retiming, print_shapes_differ,
    print_statistics,
};
pub use name_files::{NameFile, hold_names, read_name_files};
pub use names::{held_latches, missing_latch, missing_name};
pub use options::run_options;
pub use progress::{Frame, Progress, State};
pub use writing::write_circuit;
