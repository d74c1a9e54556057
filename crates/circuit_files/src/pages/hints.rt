//! Hints beside the fixed text of a failure. No hint changes how the run ends: a file that can't be
//! read again, want of memory and a failed write leave it out.
use crate::Failure;
use crate::pages::line::{is_ascii, line_number, line_of_file};
use crate::pages::name_hints::put_name;
use crate::pages::named_fault::Fault;
use crate::pages::reasons::reason;
use counted_io::{Buffered, CountedWrite};
use std::alloc::Global;
use std::fmt::Write;
use std::fs;
use std::rt::Files;

/// A failure whose fixed text was told, and what is known of it beside that.
#[derive(Clone, Copy)]
pub struct Told<'a> {
    pub failure: Failure<'a>,
    /// The name of its fault.
    pub fault: &'static str,
    /// The offset of the line at fault, if it has one.
    pub offset: Option<u64>,
    /// Whether a name that nothing has may be that of anything, and not of a latch alone.
    pub of_all: bool,
    /// Whether the file was to be written.
    pub is_written: bool,
}

/// Returns true if a failure names a file that can be read again. Standard input, whose name is
/// `stdin`, can't. Nor can a pipe, since opening one again would wait for a writer.
pub(crate) fn can_be_read_again<R: Files>(rt: &R, name: &str) -> bool {
    if name == "stdin" {
        return false;
    }
    match fs::metadata(rt, name) {
        Ok(metadata) => metadata.is_file(),
        Err(_) => false,
    }
}

/// Puts the line at an offset after its number.
fn put_line<R: Files, W: CountedWrite>(
    rt: &R,
    alloc: Global,
    path: &str,
    offset: u64,
    out: &mut Buffered<'_, W>,
) {
    if let Some(line) = line_of_file(rt, alloc, path, offset) {
        if let Some(number) = line_number(rt, path, offset) {
            out.put(b"line ");
            out.put_number(number);
            out.put(b": ");
        }
        out.put(line.as_slice());
        drop(line);
    }
}

/// Puts the line at fault of a file that can be read again.
fn put_line_of<R: Files, W: CountedWrite>(
    rt: &R,
    alloc: Global,
    path: &str,
    offset: Option<u64>,
    out: &mut Buffered<'_, W>,
) {
    if let Some(offset) = offset {
        if can_be_read_again(rt, path) {
            put_line(rt, alloc, path, offset, out);
        }
    }
}

/// Puts the line at fault of a text, or the nearest name, as the failure asks. Of circuits those in
/// ASCII have lines.
fn put_place<R: Files, W: CountedWrite>(
    rt: &R,
    alloc: Global,
    told: &Told<'_>,
    out: &mut Buffered<'_, W>,
) {
    match told.failure {
        Failure::Refused(path, _) => {
            if can_be_read_again(rt, path) && is_ascii(rt, path) {
                put_line_of(rt, alloc, path, told.offset, out);
            }
        }
        Failure::RefusedStimulus(path, _)
        | Failure::RefusedList(path, _)
        | Failure::RefusedCertificates(path, _)
        | Failure::RefusedWitness(path, _) => put_line_of(rt, alloc, path, told.offset, out),
        Failure::NoSuchName(path, name) => {
            if can_be_read_again(rt, path) {
                put_name(rt, alloc, path, name, told.of_all, out);
            }
        }
        _ => {}
    }
}

/// Puts why a file can't be read or written, in the system's words; else what the fault is.
fn put_meaning<R: Files, W: CountedWrite>(
    rt: &R,
    told: &Told<'_>,
    fault: Fault,
    out: &mut Buffered<'_, W>,
) {
    let why = match told.failure {
        Failure::Device(path) => reason(rt, path, told.is_written),
        _ => None,
    };
    match why {
        Some(error) => {
            let _ = write!(out, "{error}.");
            drop(error);
        }
        None => out.put(fault.page().meaning.as_bytes()),
    }
}

/// Puts the command that prints the page of a fault.
fn put_pointer<W: CountedWrite>(fault: Fault, out: &mut Buffered<'_, W>) {
    out.put(b" 'fretime explain ");
    out.put(fault.name().as_bytes());
    out.put(b"' says more.\n");
}

/// Says on a terminal what a fault is, and the command that prints its page. A write that fails
/// changes nothing.
pub fn tell_page<E: CountedWrite>(fault: Fault, err: &mut E) {
    let mut out = Buffered::new(err);
    out.put(fault.page().meaning.as_bytes());
    put_pointer(fault, &mut out);
    let _ = out.flush();
}

/// Says more of a failure on standard error, if that is a terminal. That is the line at fault of a
/// text, or the nearest name to one that no latch has, or that nothing has if `of_all`. It is also
/// why a file can't be read or written, what the fault is, and the command that prints its page.
/// Elsewhere a program may compare the text, which is then the fixed one alone. Only a regular file
/// is read again, and none of the name `stdin`.
pub fn give_hint<R: Files, E: CountedWrite>(
    rt: &R,
    alloc: Global,
    told: &Told<'_>,
    is_terminal: bool,
    err: &mut E,
) {
    if !is_terminal {
        return;
    }
    let mut out = Buffered::new(err);
    put_place(rt, alloc, told, &mut out);
    if let Some(fault) = Fault::named(told.fault) {
        put_meaning(rt, told, fault, &mut out);
        put_pointer(fault, &mut out);
    }
    let _ = out.flush();
}
