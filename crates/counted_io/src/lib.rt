//! Readers and writers that count their failures: buffered writing, which takes no memory, reading
//! to the end, streams of paths, and fake devices for tests.
//!
//! The path `-` of a command line names a standard stream, and any other path a file (that of the
//! name `-` is `./-`).
#![tactic(auto)]

mod buffered;
mod counted;
mod fakes;
mod reading;
mod source;
mod streams;
mod target;
mod waiting;
mod writing;

pub use buffered::Buffered;
pub use counted::{Counted, CountedRead, CountedWrite};
pub use fakes::{FailAfter, Failure, OneByte};
pub use reading::{ReadAllError, read_all};
pub use source::Source;
pub use streams::Streams;
pub use target::Target;
pub use writing::{WriteError, write_all};
