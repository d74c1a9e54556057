//! The rule for files of a command line, for those of a list, line by line. What is printed and
//! `OUT` are written, the list and `IN` are read. Other files of the list that are one lose
//! nothing: all `IN` are read first, and of two circuits the later one stands.
ghost use Rattle.std.specs.Prelude.{◌≡◌, ◌∷◌, [], IfOk};
ghost use Rattle.file_identities.specs.Clashes.{first_clash};
ghost use Rattle.file_identities.specs.ListFiles.{IsFirstOfLines, IsLineClash, IsListClash};
ghost use Rattle.file_identities.specs.ListFiles as wanted;

use crate::clash::{FileClash, pair_clash};
use crate::file_use::{Argument, FileUse, Place, Role};
use crate::file_uses::{printed, reading};
use crate::identity::{Asked, ask};
use circuit_files::Entry;
use counted_io::Source;
use std::alloc::{AllocError, Global};
use std::rt::Files;

/// Returns the circuit that a line writes.
pub(crate) fn output_of<'a>(entry: &Entry<'a>) -> FileUse<'a>
    ensures { result ≡ wanted.output_use entry.now }
{
    FileUse {
        argument: Argument::Out,
        role: Role::Remade,
        place: Place::File(entry.output),
    }
}

/// Returns the circuit that a line reads.
fn input_of<'a>(entry: &Entry<'a>) -> FileUse<'a>
    ensures { result ≡ wanted.input_use entry.now }
{
    FileUse {
        argument: Argument::In,
        role: Role::Original,
        place: Place::File(entry.input),
    }
}

/// Returns the first clash of what is printed and a circuit, which are written, and the list and a
/// circuit, which are read.
fn clash_of_four<'a>(
    printed: &Asked<'a>,
    output: &Asked<'a>,
    list: &Asked<'a>,
    input: &Asked<'a>,
) -> Option<FileClash<'a>>
    ensures { result ≡ first_clash (printed.now ∷ output.now ∷ []) (list.now ∷ input.now ∷ []) }
{
    let under_output = pair_clash(printed, output);
    let under_list = pair_clash(printed, list);
    let under_input = pair_clash(printed, input);
    let over_list = pair_clash(output, list);
    let over_input = pair_clash(output, input);
    under_output
        .or(under_list)
        .or(under_input)
        .or(over_list)
        .or(over_input)
}

/// Returns the first clash of a line.
fn line_clash<'a, R: Files>(
    rt: &R,
    alloc: Global,
    printed: &Asked<'a>,
    list: &Asked<'a>,
    entry: &Entry<'a>,
) -> Result<Option<FileClash<'a>>, AllocError>
    ensures { IfOk result (IsLineClash printed.now list.now entry.now) }
{
    let output = ask(rt, alloc, output_of(entry))?;
    match ask(rt, alloc, input_of(entry)) {
        Ok(input) => {
            let clash = clash_of_four(printed, &output, list, &input);
            drop(input);
            drop(output);
            Ok(clash)
        }
        Err(error) => {
            drop(output);
            Err(error)
        }
    }
}

/// Returns the clash of the first line that has one, else of what is printed and the list.
fn first_of_lines<'a, R: Files>(
    rt: &R,
    alloc: Global,
    printed: &Asked<'a>,
    list: &Asked<'a>,
    entries: &[Entry<'a>],
) -> Result<Option<FileClash<'a>>, AllocError>
    ensures { IfOk result (IsFirstOfLines printed.now list.now entries.now) }
{
    for entry in entries {
        let clash = line_clash(rt, alloc, printed, list, entry)?;
        if clash.is_some() {
            return Ok(clash);
        }
    }
    Ok(pair_clash(printed, list))
}

/// Returns the first two files of a line that are one, if something would be lost. They may be
/// named by any paths, and may exist or be about to be made. Nothing is opened. The time is linear
/// in the number of lines.
///
/// # Errors
///
/// Memory is refused.
pub fn find_list_clash<'a, R: Files>(
    rt: &R,
    alloc: Global,
    list: Source<'a>,
    entries: &[Entry<'a>],
) -> Result<Option<FileClash<'a>>, AllocError>
    ensures { IfOk result (IsListClash list.entry entries.now) }
{
    let printed = ask(rt, alloc, printed())?;
    match ask(rt, alloc, reading(Argument::List, list)) {
        Ok(list) => {
            let clash = first_of_lines(rt, alloc, &printed, &list, entries);
            drop(list);
            drop(printed);
            clash
        }
        Err(error) => {
            drop(printed);
            Err(error)
        }
    }
}
