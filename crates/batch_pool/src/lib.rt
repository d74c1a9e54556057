//! Many files at once: each is retimed by itself, by workers that draw the files from one list.
//!
//! The outcome of a file depends on its bytes and the options alone. It doesn't depend on the
//! workers, the other files, or the order in which the files are drawn.
//!
//! A list of jobs is run by several workers that draw the jobs' numbers from one shared counter.
//!
//! The counter is one word of an `atomic_table`, and a draw is one `fetch_add` of 1. The rule of
//! the table ties the word to what each seat has drawn. The seats together hold the numbers below
//! the word, each once, and none is left out.
//!
//! Each outcome carries the number of its job from the draw to its place in the list. So the worker
//! and the order in which jobs ran show in no answer.
#![tactic(auto)]

mod batch;
mod draws;
mod error;
mod job;
mod laws;
mod pool;
mod rule;
mod share;
mod slots;

pub use batch::run_batch;
pub use draws::{Drawer, Draws};
pub use error::BatchError;
pub use job::{Job, Outcome};
pub use laws::counter_law;
pub use pool::run_jobs;
