//! What the words of a command line ask for, read by `clap`.
#![tactic(auto)]

mod options;
mod parse;
mod refusing;
mod stream_uses;
mod task;
mod values;

pub use options::RetimingOptions;
pub use parse::parse_arguments;
pub use refusing::command_error;
pub use task::{
    Asking, Batch, Carrying, Checking, Comparison, Counting, Drawing, Lifting, MoveKind, Moving,
    Retiming, Sequences, Shown, Simulation, Stimuli, Task, Verification,
};
