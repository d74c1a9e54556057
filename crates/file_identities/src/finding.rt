//! The first clash of the files of a task.
ghost use Rattle.std.specs.Prelude.{◌≡◌, IfOk};
ghost use Rattle.file_identities.specs.Clashes.{IsClashOf};

use crate::clash::{FileClash, first_clash};
use crate::file_uses::{read_by, written_by};
use command_line::Task;
use std::alloc::{AllocError, Global};
use std::rt::Files;

/// Returns the first two files of a task that are one, if something would be lost. They may be
/// named by any paths, and may exist or be about to be made. Nothing is opened.
///
/// # Errors
///
/// Memory is refused.
pub fn find_clash<'a, R: Files>(
    rt: &R,
    alloc: Global,
    task: &Task<'a>,
) -> Result<Option<FileClash<'a>>, AllocError>
    ensures { IfOk result (IsClashOf task.now) }
{
    let written = written_by(rt, alloc, task)?;
    match read_by(rt, alloc, task) {
        Ok(read) => {
            let clash = first_clash(written.as_slice(), read.as_slice());
            drop(read);
            drop(written);
            Ok(clash)
        }
        Err(error) => {
            drop(written);
            Err(error)
        }
    }
}
