//! The values of arguments. Each has a function whose clause says which argument it comes from.
//! That the command-line library matched the words as it should is only tested.
ghost use Rattle.std.specs.Prelude.{◌≡◌, ◌^◌, IfOk, IfSome, codes, map};
ghost use Rattle.counted_io.specs.Streams.{source_of};
ghost use Rattle.command_line.specs.Asking.{AreSources, IsBound, IsChoice, IsFlag, IsNumber, IsShown, IsSomeSource, IsSomeTarget, IsSource, IsSpelling, number_of, values_of};

use crate::task::Shown;
use aig_graph::Choice;
use clap::ArgMatches;
use counted_io::{Source, Target};
use file_words::Spelling;
use frame_runs::PathBound;
use std::alloc::{AllocError, Global};

/// Returns the source of the argument with this id, a path that is read.
pub(crate) fn source<'a>(matches: &ArgMatches<'a>, id: &str) -> Option<Source<'a>>
    ensures { IfSome result (IsSource matches.now id.now) }
{
    match matches.get_str(id) {
        Some(path) => Some(Source::of(path)),
        None => None,
    }
}

/// Returns the source of the argument with this id, if it is given.
pub(crate) fn source_if_given<'a>(matches: &ArgMatches<'a>, id: &str) -> Option<Source<'a>>
    ensures { IsSomeSource matches.now id.now result }
{
    match matches.get_str(id) {
        Some(path) => Some(Source::of(path)),
        None => None,
    }
}

/// Returns the sources of paths that are read.
fn sources_of<'a>(alloc: Global, paths: &[&'a str]) -> Result<Vec<Source<'a>>, AllocError>
    ensures { IfOk result (λ sources. sources.items ≡ map source_of paths.now) }
{
    let mut sources = Vec::new(alloc);
    for path in paths {
        sources.push(Source::of(*path))?;
    }
    Ok(sources)
}

/// Returns the source of each value of the argument with this id, a path that is read.
pub(crate) fn sources<'a>(
    alloc: Global,
    matches: &ArgMatches<'a>,
    id: &str,
) -> Result<Vec<Source<'a>>, AllocError>
    ensures { IfOk result (λ sources. AreSources matches.now id.now sources.items) }
{
    sources_of(alloc, matches.get_strs(id).unwrap_or(&[]))
}

/// Returns the target of the argument with this id, a path that is written.
pub(crate) fn target<'a>(matches: &ArgMatches<'a>, id: &str) -> Option<Target<'a>>
    ensures { IsSomeTarget matches.now id.now result }
{
    match matches.get_str(id) {
        Some(path) => Some(Target::of(path)),
        None => None,
    }
}

/// Returns the spelling that a flag chooses.
pub(crate) fn spelling(matches: &ArgMatches<'_>) -> Option<Spelling>
    ensures { IsSpelling matches.now result }
{
    if matches.get_flag("ascii") {
        Some(Spelling::Ascii)
    } else if matches.get_flag("binary") {
        Some(Spelling::Binary)
    } else {
        None
    }
}

/// Returns the least set that a flag chooses: the smallest, else the greatest.
pub(crate) fn choice(matches: &ArgMatches<'_>) -> Choice
    ensures { IsChoice matches.now result }
{
    if matches.get_flag("near") {
        Choice::Smallest
    } else {
        Choice::Greatest
    }
}

/// Returns what a flag asks to be shown of a run: a line for each frame, nothing, else what a
/// terminal is shown.
pub(crate) fn shown(matches: &ArgMatches<'_>) -> Shown
    ensures { IsShown matches.now result }
{
    if matches.get_flag("progress") {
        Shown::EachFrame
    } else if matches.get_flag("quiet") {
        Shown::Nothing
    } else {
        Shown::OnTerminal
    }
}

/// Returns the number that an argument has as its value, else the default.
pub(crate) fn number(matches: &ArgMatches<'_>, id: &str, default: u32) -> u32
    ensures { IsNumber matches.now id.now default result }
{
    matches.get_one(id).unwrap_or(default)
}

pub(crate) fn workers(matches: &ArgMatches<'_>) -> u32
    ensures { IsNumber matches.now (codes "workers") 1 result }
{
    number(matches, "workers", 1)
}

pub(crate) fn frames(matches: &ArgMatches<'_>) -> u32
    ensures { IsNumber matches.now (codes "frames") (2 ^ 28) result }
{
    number(matches, "frames", 1 << 28)
}

/// Returns the bound on paths: the longest path that is read, or a number.
pub(crate) fn bound(matches: &ArgMatches<'_>) -> PathBound
    ensures { IsBound matches.now result }
{
    if matches.get_flag("no-longer") {
        return PathBound::NoLonger;
    }
    match matches.get_str("levels") {
        Some(_given) => PathBound::Levels(number(matches, "levels", 0)),
        None => PathBound::None,
    }
}

/// Returns the names of the latches that are held.
pub(crate) fn keep<'a>(alloc: Global, matches: &ArgMatches<'a>) -> Result<Vec<&'a str>, AllocError>
    ensures { IfOk result (λ names. map (λ name. name.now) names.items
        ≡ values_of matches.now (codes "keep")) }
{
    Vec::from_slice(alloc, matches.get_strs("keep").unwrap_or(&[]))
}

/// Returns the number that a text is, else 0.
fn number_of(text: &str) -> u32
    ensures { result ≡ number_of text.now }
{
    text.parse().unwrap_or(0)
}

/// Returns the numbers that texts are.
fn numbers_of(alloc: Global, texts: &[&str]) -> Result<Vec<u32>, AllocError>
    ensures { IfOk result (λ numbers. numbers.items
        ≡ map number_of (map (λ text. text.now) texts.now)) }
{
    let mut numbers = Vec::new(alloc);
    for text in texts {
        numbers.push(number_of(text))?;
    }
    Ok(numbers)
}

/// Returns the positions of the latches that are held.
pub(crate) fn keep_latches(alloc: Global, matches: &ArgMatches<'_>) -> Result<Vec<u32>, AllocError>
    ensures { IfOk result (λ places. places.items
        ≡ map number_of (values_of matches.now (codes "keep-latch"))) }
{
    numbers_of(alloc, matches.get_strs("keep-latch").unwrap_or(&[]))
}

/// Returns true if an object of JSON is printed.
pub(crate) fn json(matches: &ArgMatches<'_>) -> bool
    ensures { IsFlag matches.now (codes "json") result }
{
    matches.get_flag("json")
}

/// Returns true if latches that always agree are merged.
pub(crate) fn merge(matches: &ArgMatches<'_>) -> bool
    ensures { IsFlag matches.now (codes "merge") result }
{
    matches.get_flag("merge")
}

pub(crate) fn depth(matches: &ArgMatches<'_>) -> u32
    ensures { IsNumber matches.now (codes "depth") 2 result }
{
    number(matches, "depth", 2)
}
