//! The parts of a file, one after another. A part lists merged latches or doesn't, as the version
//! says, and then has blocks.
ghost use Rattle.std.specs.Prelude.{List, ◌≡◌, ◌+◌, ◌≤◌, [], is_some, length, IfOk};
ghost use Rattle.aig_graph.specs.declared.choice.Choice.{Choice};
ghost use Rattle.certificate_files.specs.declared.file.CertPart.{CertPart as Part};
ghost use Rattle.certificate_files.specs.declared.fault.CertError.TheVariants.{NoMemory};
ghost use Rattle.certificate_files.specs.Files.{Blocks, file_of, front_of, nothing_read};
ghost use Rattle.certificate_files.specs.Steps.{lines_of_next, read_rest, rest_after_choice, rest_after_parts, rest_of_part};
ghost use Rattle.file_words.specs.Answering.{Gives, Leads};

use crate::blocks::{PartBlocks, read_blocks};
use crate::fault::CertError;
use crate::file::CertPart;
use crate::merged_lines::{next_count, read_merged};
use aig_graph::Sequence;
use certificates::MergedLatch;
use file_words::Lines;
use std::alloc::Global;

/// Takes the lines of a part's merged latches, if it lists them.
fn listed(
    alloc: Global,
    lines: &mut Lines<'_>,
    count: Option<u32>,
) -> Result<Option<Sequence<MergedLatch>>, CertError>
    ensures end { lines.new.end ≡ lines.old.end }
    ensures shorter { length lines.new.rest.now ≤ length lines.old.rest.now }
    ensures lists { IfOk result (λ merged. is_some merged ≡ is_some count) }
    ensures reads { (choice : Choice) (parts : List Part)
        → Leads NoMemory (λ merged. read_rest lines.new.end lines.new.rest.now
        (Blocks (front_of choice parts merged) nothing_read)) result
        (rest_of_part choice parts count lines.old.end lines.old.rest.now) }
{
    match count {
        Some(count) => {
            let merged = read_merged(alloc, lines, count)?;
            Ok(Some(merged))
        }
        None => Ok(None),
    }
}

/// Takes the lines of a part, and adds that part. Returns the number of merged latches of the next
/// one, if there is one. `count` is the number of merged latches of this one, if it lists them.
fn add_part(
    alloc: Global,
    lines: &mut Lines<'_>,
    parts: &mut Vec<CertPart>,
    count: Option<u32>,
) -> Result<Option<u32>, CertError>
    ensures end { lines.new.end ≡ lines.old.end }
    ensures shorter { IfOk result (λ next. length lines.new.rest.now + lines_of_next next
        ≤ length lines.old.rest.now) }
    ensures reads { (choice : Choice) → Leads NoMemory (λ next. rest_after_parts choice
        parts.new.items next lines.new.end lines.new.rest.now) result
        (rest_of_part choice parts.old.items count lines.old.end lines.old.rest.now) }
{
    let merged = listed(alloc, lines, count)?;
    let part = read_blocks(alloc, lines, count.is_some())?;
    let PartBlocks { blocks, next } = part;
    parts.push(CertPart { merged, blocks })?;
    Ok(next)
}

/// Takes parts up to the end of the text. `count` is the number of merged latches of the first one,
/// if it lists them.
fn parts_from(
    alloc: Global,
    lines: &mut Lines<'_>,
    count: Option<u32>,
) -> Result<Sequence<CertPart>, CertError>
    ensures { (choice : Choice) → Gives NoMemory (λ parts. file_of choice parts) result
        (rest_of_part choice [] count lines.old.end lines.old.rest.now) }
{
    let mut parts = Vec::new(alloc);
    let mut next = add_part(alloc, lines, &mut parts, count)?;
    while let Some(count) = next {
        next = add_part(alloc, lines, &mut parts, Some(count))?;
    }
    Ok(Sequence::from_vec(parts))
}

/// Returns the parts up to the end of the text. `lists` says whether they list merged latches.
pub(crate) fn read_parts(
    alloc: Global,
    lines: &mut Lines<'_>,
    lists: bool,
) -> Result<Sequence<CertPart>, CertError>
    ensures { (choice : Choice) → Gives NoMemory (λ parts. file_of choice parts) result
        (rest_after_choice lists choice lines.old.end lines.old.rest.now) }
{
    if lists {
        let count = next_count(lines)?;
        parts_from(alloc, lines, Some(count))
    } else {
        parts_from(alloc, lines, None)
    }
}
