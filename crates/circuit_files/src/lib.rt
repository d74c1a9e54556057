//! Files as a command reads and writes them: circuits, stimuli, certificates, witnesses and lists
//! of files. Tells what a file was given, how a run over files ends, and what a user reads of one
//! that is refused.
#![tactic(auto)]

mod entry;
mod fault;
mod files;
mod given;
mod laws;
mod lazy_file;
mod outcome;
mod output_files;
mod pages;
mod read;

pub use entry::Entry;
pub use fault::ListError;
pub use files::{
    bytes_at, bytes_of_file, certificates_at, circuit_at, opened, stimulus_at, witness_at,
};
pub use laws::given_file_law;
pub use lazy_file::{LazyFile, close, file_at};
pub use outcome::{Failure, Outcome};
pub use output_files::OutputFiles;
pub use pages::{
    Fault, Message, Page, Told, give_hint, nearest, printable, shown_line, tell_page, tell_returns,
    tell_spelling,
};
pub use read::read_list;
