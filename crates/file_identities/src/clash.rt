//! The first two files of a command line that can't be one file and are.
ghost use Rattle.std.specs.Prelude.{◌≡◌, ◌∷◌, []};
ghost use Rattle.file_identities.specs.Clashes.{clash_among};
ghost use Rattle.file_identities.specs.Clashes as wanted;

use crate::file_use::FileUse;
use crate::identity::{Asked, Keeping};
use std::fmt;
use std::fmt::{Debug, Display, Formatter};
use thiserror::Error;

/// Why a command line is refused: two of its files are one, and something would be lost.
#[derive(Clone, Copy, Error)]
pub enum FileClash<'a> {
    /// Both are written.
    #[error("{0} and {1} are one file: each thing that is written has a file of its own")]
    WrittenTwice(FileUse<'a>, FileUse<'a>),
    /// The first is written, and the second read.
    #[error("{0} and {1} are one file: it would be written over what is read")]
    WrittenOver(FileUse<'a>, FileUse<'a>),
}

// its message: derived, each part of both files has arms with steps of its own
impl Debug for FileClash<'_> {
    fn fmt<W: fmt::Write>(&self, f: &mut Formatter<W>) -> fmt::Result {
        Display::fmt(self, f)
    }
}

/// Returns true if two that are written lose nothing as one pipe or device.
fn is_shared(first: FileUse<'_>, second: FileUse<'_>) -> bool
    ensures { result ≡ wanted.is_shared first.entry second.entry }
{
    first.role.stands_with(second.role) || first.is_aside(&second)
}

/// Returns true if something is lost if the first of two, which is written, and the second are one
/// file.
fn loses(keeping: Keeping, first: FileUse<'_>, second: FileUse<'_>) -> bool
    ensures { result ≡ wanted.loses keeping first.entry second.entry }
{
    match keeping {
        Keeping::Bytes => !(first.replaces(&second) || first.role.stands_with(second.role)),
        Keeping::Pipe => second.role.is_written() && !is_shared(first, second),
        Keeping::Device => {
            (second.role.is_written() && !is_shared(first, second))
                && (first.place.is_stream() || second.place.is_stream())
        }
    }
}

/// Returns true if two files, of which the first is written, can't be one and are.
fn clash(first: &Asked<'_>, second: &Asked<'_>) -> bool
    ensures { result ≡ wanted.clash first.now second.now }
{
    match (&first.identity, &second.identity) {
        (Some(one), Some(other)) => one.is_same(other)
            && loses(one.keeping, first.file, second.file),
        _ => false,
    }
}

/// Returns the clash of two files.
fn clash_of<'a>(first: &Asked<'a>, second: &Asked<'a>) -> FileClash<'a>
    ensures { result ≡ wanted.clash_of first.now second.now }
{
    if second.file.role.is_written() {
        FileClash::WrittenTwice(first.file, second.file)
    } else {
        FileClash::WrittenOver(first.file, second.file)
    }
}

/// Returns the clash of two files, if they are one.
pub(crate) fn pair_clash<'a>(first: &Asked<'a>, second: &Asked<'a>) -> Option<FileClash<'a>>
    ensures { result ≡ clash_among first.now (second.now ∷ []) }
{
    if clash(first, second) {
        Some(clash_of(first, second))
    } else {
        None
    }
}

/// Returns the first of some files that clashes with one that is written.
fn clash_among<'a>(first: &Asked<'a>, others: &[Asked<'a>]) -> Option<FileClash<'a>>
    ensures { result ≡ wanted.clash_among first.now others.now }
{
    for other in others {
        if clash(first, other) {
            return Some(clash_of(first, other));
        }
    }
    None
}

/// Returns the first clash with those that are written after it, else with those that are read.
fn clash_with<'a>(
    first: &Asked<'a>,
    later: &[Asked<'a>],
    read: &[Asked<'a>],
) -> Option<FileClash<'a>>
    ensures { result ≡ wanted.clash_with first.now later.now read.now }
{
    match clash_among(first, later) {
        Some(clash) => Some(clash),
        None => clash_among(first, read),
    }
}

/// Returns the first file that is written and clashes with one that is written after it, or with
/// one that is read. The time is linear in what is read, for each file that is written.
pub(crate) fn first_clash<'a>(written: &[Asked<'a>], read: &[Asked<'a>]) -> Option<FileClash<'a>>
    ensures { result ≡ wanted.first_clash written.now read.now }
{
    for (k, first) in written.iter().enumerate() {
        let clash = clash_with(first, &written[k + 1..], read);
        if clash.is_some() {
            return clash;
        }
    }
    None
}
