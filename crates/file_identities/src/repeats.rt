//! Lines of a list that write one file. Both are written, and the later circuit stands: a terminal
//! is told so, and nothing rests on it.
use crate::identity::{Asked, Identity, Keeping, ask};
use crate::list_files::output_of;
use circuit_files::Entry;
use std::alloc::{AllocError, Global};
use std::collections::HashSet;
use std::rt::Files;

/// A file by its number, or by that of the folder in which it would be made and its name there.
#[derive(Clone, Copy, PartialEq, Eq, Hash)]
struct FileNumber<'a> {
    device: u64,
    node: u64,
    name: &'a str,
}

/// Returns the number of a file that keeps its bytes.
fn number_of<'a>(file: &'a Asked<'_>) -> Option<FileNumber<'a>> {
    match &file.identity {
        Some(identity) => match identity.keeping {
            Keeping::Bytes => Some(number(identity)),
            Keeping::Pipe | Keeping::Device => None,
        },
        None => None,
    }
}

fn number(file: &Identity) -> FileNumber<'_> {
    FileNumber {
        device: file.device,
        node: file.node,
        name: file.name.as_str(),
    }
}

/// Takes the number of a file, and returns whether it was taken before.
fn takes_again<'a>(
    taken: &mut HashSet<FileNumber<'a>>,
    file: &'a Asked<'_>,
) -> Result<bool, AllocError> {
    match number_of(file) {
        Some(number) => Ok(!taken.insert(number)?),
        None => Ok(false),
    }
}

/// Returns the number of the first of these files that is one before it, from 1.
fn first_repeat(alloc: Global, files: &[Asked<'_>]) -> Result<Option<u64>, AllocError> {
    let mut taken = HashSet::new(alloc);
    for (k, file) in files.iter().enumerate() {
        if takes_again(&mut taken, file)? {
            return Ok(Some(1 + k as u64));
        }
    }
    Ok(None)
}

/// Asks for the files that a list writes.
fn ask_outputs<'a, R: Files>(
    rt: &R,
    alloc: Global,
    entries: &[Entry<'a>],
) -> Result<Vec<Asked<'a>>, AllocError> {
    let mut files = Vec::new(alloc);
    for entry in entries {
        files.push(ask(rt, alloc, output_of(entry))?)?;
    }
    Ok(files)
}

/// Returns the number of the first line that writes the file of a line before it, by whatever
/// paths, from 1. Gives none if memory is refused. The time is linear in the number of lines.
pub fn repeated_output<R: Files>(rt: &R, alloc: Global, entries: &[Entry<'_>]) -> Option<u64> {
    match ask_outputs(rt, alloc, entries) {
        Ok(files) => {
            let number = first_repeat(alloc, files.as_slice());
            drop(files);
            match number {
                Ok(number) => number,
                Err(_) => None,
            }
        }
        Err(_) => None,
    }
}
