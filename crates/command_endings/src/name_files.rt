//! Files of names of latches that are held: each line is a name, and an empty line is none.
ghost use Rattle.std.specs.Prelude.{◌≡◌, IfErr, IfOk, MatchResult, Ok, OnOk, map, option_map, true};
ghost use Rattle.counted_io.specs.Input.{ReadsAll};
ghost use Rattle.file_words.specs.Answering.{Gives};
ghost use Rattle.counted_io.specs.Streams.{is_stdin, source_name};
ghost use Rattle.circuit_files.specs.Entries.{text_of};
ghost use Rattle.circuit_files.specs.declared.fault.ListError.TheVariants.{NoMemory};
ghost use Rattle.circuit_files.specs.Outcomes.{IsAbout};
ghost use Rattle.command_endings.specs.HeldNames.{texts_of};
ghost use Rattle.command_endings.specs.NameFiles as wanted;

use circuit_files::{Failure, ListError, bytes_at};
use command_line::Task;
use counted_io::{CountedRead, Source};
use file_words::{Line, Lines};
use std::alloc::Global;
use std::rt::Files;
use std::str;

/// What a file of names has.
#[derive(Drop)]
pub struct NameFile<'a> {
    source: Source<'a>,
    bytes: Vec<u8>,
}

/// Reads a file of names.
fn name_file_at<'a, R: Files, I: CountedRead>(
    rt: &R,
    alloc: Global,
    source: Source<'a>,
    stdin: &mut I,
) -> Result<NameFile<'a>, Failure<'a>>
    ensures source { IfOk result (λ file. file.source ≡ source.entry) }
    ensures stdin { is_stdin source.entry ≡ true → IfOk result
        (λ file. ReadsAll (I.input stdin.old) (I.input stdin.new) file.bytes.items) }
    ensures named { IfErr result (IsAbout (source_name source.entry)) }
{
    match bytes_at(rt, alloc, source, stdin) {
        Ok(bytes) => Ok(NameFile { source, bytes }),
        Err(failure) => Err(failure),
    }
}

/// Reads files of names, one after another.
pub fn read_name_files<'a, R: Files, I: CountedRead>(
    rt: &R,
    alloc: Global,
    sources: &[Source<'a>],
    stdin: &mut I,
) -> Result<Vec<NameFile<'a>>, Failure<'a>>
    ensures { IfOk result (λ files. map (λ file. file.source) files.items ≡ sources.now) }
{
    let mut files = Vec::new(alloc);
    for source in sources {
        let file = name_file_at(rt, alloc, *source, stdin)?;
        match files.push(file) {
            Ok(()) => {}
            Err(_) => return Err(Failure::Memory),
        }
    }
    Ok(files)
}

/// Returns the name that a line is, if it is UTF-8.
fn name_of(line: &[u8]) -> Option<&str>
    ensures { option_map (λ name. name.now) result ≡ text_of line.now }
{
    match str::from_utf8(line) {
        Ok(name) => Some(name),
        Err(_) => None,
    }
}

/// Appends the name that a line is.
fn push_name<'t>(line: &Line<'t>, names: &mut Vec<&'t str>) -> Result<(), ListError>
    ensures { Gives NoMemory (λ _. texts_of names.new.items) result
        (wanted.with_name line.now.at (texts_of names.old.items) (text_of line.now.text.now)) }
{
    match name_of(line.text) {
        Some(name) => match names.push(name) {
            Ok(()) => Ok(()),
            Err(_) => Err(ListError::NoMemory),
        },
        None => Err(ListError::BadLine(line.at)),
    }
}

/// Appends the name that a line is, unless it is empty.
fn push_line<'t>(line: &Line<'t>, names: &mut Vec<&'t str>) -> Result<(), ListError>
    ensures { Gives NoMemory (λ _. texts_of names.new.items) result
        (wanted.with_line line.now.at (texts_of names.old.items) line.now.text.now) }
{
    if line.text.is_empty() {
        Ok(())
    } else {
        push_name(line, names)
    }
}

/// Appends the names of a text.
fn push_names<'t>(text: &'t [u8], names: &mut Vec<&'t str>) -> Result<(), ListError>
    ensures { Gives NoMemory (λ _. texts_of names.new.items) result
        (wanted.with_names (texts_of names.old.items) text.now) }
{
    let mut lines = Lines::new(text);
    while let Some(line) = lines.next_line() {
        push_line(&line, names)?;
    }
    Ok(())
}

impl<'t> NameFile<'t> {
    /// Appends the names of the file.
    fn push_to(&'t self, names: &mut Vec<&'t str>) -> Result<(), Failure<'t>>
        ensures names { OnOk result (wanted.with_names (texts_of names.old.items)
            self.now.bytes.items ≡ Ok (texts_of names.new.items)) }
        ensures named { IfErr result (IsAbout (source_name self.now.source)) }
    {
        match push_names(self.bytes.as_slice(), names) {
            Ok(()) => Ok(()),
            Err(error) => Err(Failure::of_list(error, self.source.name())),
        }
    }
}

/// Appends the names of files, one after another.
fn push_names_of<'t>(files: &'t [NameFile<'t>], names: &mut Vec<&'t str>) -> Result<(), Failure<'t>>
    ensures { OnOk result (wanted.with_names_of (texts_of names.old.items)
        (map (λ file. file.bytes.items) files.now) ≡ Ok (texts_of names.new.items)) }
{
    for file in files {
        file.push_to(names)?;
    }
    Ok(())
}

/// Adds the names of files to those that a task holds.
///
/// # Errors
///
/// A line isn't UTF-8, or memory is refused.
pub fn hold_names<'t>(files: &'t [NameFile<'t>], task: &mut Task<'t>) -> Result<(), Failure<'t>>
    ensures { OnOk result (wanted.AddsNames (map (λ file. file.bytes.items) files.now)
        task.old task.new) }
{
    match task {
        Task::Retime(retiming) => push_names_of(files, &mut retiming.options.keep),
        Task::Move(moving) => push_names_of(files, &mut moving.options.keep),
        Task::Verify(verification) => push_names_of(files, &mut verification.options.keep),
        Task::Dot(drawing) => push_names_of(files, &mut drawing.options.keep),
        _ => Ok(()),
    }
}
