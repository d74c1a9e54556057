//! Which files of a command line, and of a list, are one file, by whatever paths, and whether
//! something would be lost so.
#![tactic(auto)]

mod clash;
mod file_use;
mod file_uses;
mod finding;
mod identity;
mod laws;
mod list_files;
mod repeats;

pub use clash::FileClash;
pub use file_use::{Argument, FileUse, Place, Role};
pub use finding::find_clash;
pub use laws::{apart_law, list_apart_law};
pub use list_files::find_list_clash;
pub use repeats::repeated_output;
