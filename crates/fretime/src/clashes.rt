//! Files of a command line, or of a list, that are one, as an error of the command.
ghost use Rattle.std.specs.Prelude.{◌≡◌, ◌⊎◌, IfNone, IfSome, None};
ghost use Rattle.clap.specs.Values.{kind_of};
ghost use Rattle.clap.specs.declared.error.kind.ErrorKind.TheVariants.{ArgumentConflict, OutOfMemory};
ghost use Rattle.file_identities.specs.Clashes.{IsClashOf};
ghost use Rattle.file_identities.specs.ListFiles.{IsListClash};

use circuit_files::Entry;
use clap::Error;
use clap::error::ErrorKind;
use command_line::{Task, command_error};
use counted_io::Source;
use file_identities::{FileClash, find_clash, find_list_clash};
use std::alloc::Global;
use std::rt::Files;

/// Returns a clash as an error of the command with this name.
fn error_of(alloc: Global, command: &str, clash: FileClash<'_>) -> Error
    ensures { (kind_of result ≡ ArgumentConflict) ⊎ (kind_of result ≡ OutOfMemory) }
{
    match format!(in alloc; "{clash}") {
        Ok(message) => {
            let kind = ErrorKind::ArgumentConflict;
            let error = command_error(alloc, command, kind, message.as_str());
            drop(message);
            error
        }
        Err(error) => Error::from(error),
    }
}

/// Returns why a task isn't begun: two of its files are one, and something would be lost, or memory
/// is refused.
pub(crate) fn clash_error<R: Files>(rt: &R, alloc: Global, task: &Task<'_>) -> Option<Error>
    ensures apart { IfNone result (IsClashOf task.now None) }
    ensures kind { IfSome result (λ error. (kind_of error ≡ ArgumentConflict)
        ⊎ (kind_of error ≡ OutOfMemory)) }
{
    match find_clash(rt, alloc, task) {
        Ok(None) => None,
        Ok(Some(clash)) => Some(error_of(alloc, task.command(), clash)),
        Err(error) => Some(Error::from(error)),
    }
}

/// Returns why no line of a list is begun, by the files of a line.
pub(crate) fn list_clash_error<R: Files>(
    rt: &R,
    alloc: Global,
    list: Source<'_>,
    entries: &[Entry<'_>],
) -> Option<Error>
    ensures apart { IfNone result (IsListClash list.entry entries.now None) }
    ensures kind { IfSome result (λ error. (kind_of error ≡ ArgumentConflict)
        ⊎ (kind_of error ≡ OutOfMemory)) }
{
    match find_list_clash(rt, alloc, list, entries) {
        Ok(None) => None,
        Ok(Some(clash)) => Some(error_of(alloc, "batch", clash)),
        Err(error) => Some(Error::from(error)),
    }
}
