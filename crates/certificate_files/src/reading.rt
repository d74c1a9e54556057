//! The versions of a file of certificates differ before the first block and in their parts. The
//! first version has no line of the choice, and its sets are the greatest. The third lists the
//! latches that were merged, part by part. The others have one part and no list.
ghost use Rattle.std.specs.Prelude.{Bool, ◌≡◌, ◌⊎◌, length, IfOk, IfErr, Ok, Err};
ghost use Rattle.certificate_files.specs.declared.fault.CertError.TheVariants.{NoMemory};
ghost use Rattle.file_words.specs.Answering.{Gives, Leads};
ghost use Rattle.certificate_files.specs.Files.{choice_in_line, read_text};
ghost use Rattle.certificate_files.specs.Steps.{rest_after_choice, rest_chosen, rest_of_file};

use crate::fault::CertError;
use crate::file::CertFile;
use crate::lines::next_line;
use crate::parts::read_parts;
use aig_graph::Choice;
use file_words::{Lines, is_word};
use std::alloc::Global;

/// What stands before the parts.
#[derive(Clone, Copy)]
struct Head {
    choice: Choice,
    /// Whether the parts list merged latches.
    lists: bool,
}

fn choice(text: &[u8]) -> Option<Choice>
    ensures { result ≡ choice_in_line text.now }
{
    if is_word(text, b"choice greatest") {
        Some(Choice::Greatest)
    } else if is_word(text, b"choice smallest") {
        Some(Choice::Smallest)
    } else {
        None
    }
}

/// Takes the line of the choice.
fn choice_line(lines: &mut Lines<'_>) -> Result<Choice, CertError>
    ensures end { lines.new.end ≡ lines.old.end }
    ensures reads { (lists : Bool) → Leads NoMemory (λ choice. rest_after_choice lists choice
        lines.new.end lines.new.rest.now) result
        (rest_chosen lists lines.old.end lines.old.rest.now) }
{
    let line = next_line(lines)?;
    match choice(line.text) {
        Some(choice) => Ok(choice),
        None => Err(CertError::BadLine(line.at)),
    }
}

/// Takes the line of the choice, which stands before the parts from the second version on.
fn head_from(lines: &mut Lines<'_>, lists: bool) -> Result<Head, CertError>
    ensures { Leads NoMemory (λ head. rest_after_choice head.lists head.choice lines.new.end
        lines.new.rest.now) result (rest_chosen lists lines.old.end lines.old.rest.now) }
{
    let choice = choice_line(lines)?;
    Ok(Head { choice, lists })
}

/// Takes the lines before the parts.
fn first_lines(lines: &mut Lines<'_>) -> Result<Head, CertError>
    ensures { length lines.old.rest.now ≡ lines.old.end
        → Leads NoMemory (λ head. rest_after_choice head.lists head.choice lines.new.end
        lines.new.rest.now) result
        (rest_of_file lines.old.end lines.old.rest.now) }
{
    let Ok(first) = next_line(lines) else {
        return Err(CertError::BadHeader(0));
    };
    if is_word(first.text, b"fretime-cert 1") {
        return Ok(Head {
            choice: Choice::Greatest,
            lists: false,
        });
    }
    if is_word(first.text, b"fretime-cert 2") {
        return head_from(lines, false);
    }
    if is_word(first.text, b"fretime-cert 3") {
        return head_from(lines, true);
    }
    Err(CertError::BadHeader(0))
}

fn read(alloc: Global, bytes: &[u8]) -> Result<CertFile, CertError>
    ensures { Gives NoMemory (λ file. file) result (read_text bytes.now) }
{
    let mut lines = Lines::new(bytes);
    let head = first_lines(&mut lines)?;
    let parts = read_parts(alloc, &mut lines, head.lists)?;
    Ok(CertFile {
        choice: head.choice,
        parts,
    })
}

/// Reads the certificates of a file of any version. The first one names no choice, and its sets are
/// the greatest. The third alone lists the latches that were merged, and may have several parts.
///
/// Goes over the bytes once and doesn't copy them; room is taken for what was read, whatever a line
/// says is to come. What is read is no more than a file: whether a certificate is right is judged
/// by `certificates::check`.
///
/// # Errors
///
/// The first fault of the file, or `NoMemory`, which may come before it.
pub fn read_cert(alloc: Global, bytes: &[u8]) -> Result<CertFile, CertError>
    ensures ok { IfOk result (λ file. read_text bytes.now ≡ Ok file) }
    ensures err { IfErr result (λ error. (error ≡ NoMemory) ⊎ (read_text bytes.now ≡ Err error)) }
{
    read(alloc, bytes)
}
