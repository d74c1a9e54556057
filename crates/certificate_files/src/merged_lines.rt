//! The lines of merged latches, which each part of the third version has before its blocks. A line
//! before them says how many they are; room is taken as they come.
ghost use Rattle.std.specs.Prelude.{ℕ, List, [], ◌≡◌, ◌++◌, ◌∷◌, ◌<◌, ◌≤◌, ◌^◌, length, suc, true, Some};
ghost use Rattle.aig_graph.specs.declared.choice.Choice.{Choice};
ghost use Rattle.file_words.specs.Answering.{Leads};
ghost use Rattle.certificate_files.specs.declared.fault.CertError.TheVariants.{NoMemory};
ghost use Rattle.certificates.specs.declared.merged.MergedLatch.{MergedLatch};
ghost use Rattle.certificate_files.specs.declared.file.CertPart.{CertPart as Part};
ghost use Rattle.certificate_files.specs.Files.{Blocks, count_in_line, front_of, is_small_literal, merged_count, merged_in_line, merged_latch, merging, nothing_read};
ghost use Rattle.certificate_files.specs.Steps.{read_rest, rest_after_choice, rest_of_part};

use crate::fault::CertError;
use crate::forms::{after_letters, is_small};
use crate::lines::next_line;
use aig_graph::{Lit, Sequence};
use ascii_file::NumberLine;
use certificates::MergedLatch;
use file_words::{Line, Lines};
use std::alloc::Global;

/// The greatest literal in a file.
const MAX_LITERAL: u32 = (1 << 29) - 1;

fn count(at: u64, numbers: &[u32]) -> Result<u32, CertError>
    ensures { result ≡ merged_count at (Some numbers.now) }
{
    if numbers.len() != 1 {
        return Err(CertError::BadLine(at));
    }
    let count = numbers[0];
    if is_small(count) {
        Ok(count)
    } else {
        Err(CertError::TooLarge(at))
    }
}

/// Reads the line as the one that says how many latches are merged.
pub(crate) fn count_line(line: &Line<'_>) -> Result<u32, CertError>
    ensures { result ≡ count_in_line line.now.at line.now.text.now }
{
    let Some(rest) = after_letters(line.text, b"merged ") else {
        return Err(CertError::BadLine(line.at));
    };
    let mut row = NumberLine::new();
    row.extend(rest);
    match row.numbers() {
        Some(numbers) => count(line.at, numbers),
        None => Err(CertError::BadLine(line.at)),
    }
}

fn is_small_literal(number: u32) -> bool
    ensures { result ≡ is_small_literal number }
{
    number <= MAX_LITERAL
}

/// Returns the literal with this number.
fn literal(number: u32) -> Lit
    requires { number < 2 ^ 29 }
    ensures { result ≡ number }
{
    Lit::new(number / 2, number % 2 == 1)
}

fn merged(at: u64, numbers: &[u32]) -> Result<MergedLatch, CertError>
    ensures { result ≡ merged_latch at (Some numbers.now) }
{
    if numbers.len() != 2 {
        return Err(CertError::BadLine(at));
    }
    let (latch, number) = (numbers[0], numbers[1]);
    if is_small(latch) && is_small_literal(number) {
        let reads = literal(number);
        Ok(MergedLatch { latch, reads })
    } else {
        Err(CertError::TooLarge(at))
    }
}

/// Reads the line as one of a merged latch.
fn merged_line(line: &Line<'_>) -> Result<MergedLatch, CertError>
    ensures { result ≡ merged_in_line line.now.at line.now.text.now }
{
    let Some(rest) = after_letters(line.text, b"m ") else {
        return Err(CertError::BadLine(line.at));
    };
    let mut row = NumberLine::new();
    row.extend(rest);
    match row.numbers() {
        Some(numbers) => merged(line.at, numbers),
        None => Err(CertError::BadLine(line.at)),
    }
}

/// Takes the line that says how many latches the first part merges.
pub(crate) fn next_count(lines: &mut Lines<'_>) -> Result<u32, CertError>
    ensures end { lines.new.end ≡ lines.old.end }
    ensures reads { (choice : Choice) → Leads NoMemory (λ count. rest_of_part choice []
        (Some count) lines.new.end lines.new.rest.now) result
        (rest_after_choice true choice lines.old.end lines.old.rest.now) }
{
    let line = next_line(lines)?;
    count_line(&line)
}

/// Takes the line of a merged latch.
fn next_merged(lines: &mut Lines<'_>) -> Result<MergedLatch, CertError>
    ensures end { lines.new.end ≡ lines.old.end }
    ensures shorter { length lines.new.rest.now ≤ length lines.old.rest.now }
    ensures reads { (choice : Choice) (parts : List Part) (before : List MergedLatch) (left : ℕ)
        → Leads NoMemory (λ latch. read_rest lines.new.end lines.new.rest.now
        (merging choice parts (before ++ latch ∷ []) left)) result
        (read_rest lines.old.end lines.old.rest.now (merging choice parts before (suc left))) }
{
    let line = next_line(lines)?;
    merged_line(&line)
}

/// Takes the lines of a part's merged latches.
pub(crate) fn read_merged(
    alloc: Global,
    lines: &mut Lines<'_>,
    count: u32,
) -> Result<Sequence<MergedLatch>, CertError>
    ensures end { lines.new.end ≡ lines.old.end }
    ensures shorter { length lines.new.rest.now ≤ length lines.old.rest.now }
    ensures reads { (choice : Choice) (parts : List Part)
        → Leads NoMemory (λ merged. read_rest lines.new.end lines.new.rest.now
        (Blocks (front_of choice parts (Some merged)) nothing_read)) result
        (rest_of_part choice parts (Some count) lines.old.end lines.old.rest.now) }
{
    let mut merged = Vec::new(alloc);
    for _ in 0..count {
        let latch = next_merged(lines)?;
        merged.push(latch)?;
    }
    Ok(Sequence::from_vec(merged))
}
