//! The command `explain`.
ghost use Rattle.std.specs.Prelude.{◌≡◌, IfErr, IfOk};
ghost use Rattle.std.specs.List.{flat_map};
ghost use Rattle.counted_io.specs.Buffered.{Puts};
ghost use Rattle.counted_io.specs.Output.{Output, Writes};
ghost use Rattle.circuit_files.specs.pages.Files.{smallest_file};
ghost use Rattle.circuit_files.specs.Outcomes.{outcome_of};
ghost use Rattle.circuit_files.specs.declared.outcome.Outcome.TheVariants.{CommandLine, Memory};
ghost use Rattle.command_endings.specs.Printing.{Prints, ending};
ghost use Rattle.fretime.specs.Explaining.{Explains, FailsToExplain, file_part, file_text, indented, indented_byte, page_text};

use circuit_files::{Failure, Fault, Message, Outcome};
use counted_io::{Buffered, CountedWrite, Streams, WriteError};
use std::alloc::Global;

/// Puts a byte of a file, and four spaces if it ends a line.
fn put_indented<W: CountedWrite>(out: &mut Buffered<'_, W>, byte: u8)
    ensures { Puts W.output out.old out.new (indented_byte byte) }
{
    if byte == b'\n' {
        out.put(b"\n    ");
    } else {
        out.put_byte(byte);
    }
}

fn put_bytes<W: CountedWrite>(out: &mut Buffered<'_, W>, bytes: &[u8])
    ensures { Puts W.output out.old out.new (flat_map indented_byte bytes.now) }
{
    for byte in bytes {
        put_indented(out, *byte);
    }
}

/// Puts the lines of a file that doesn't end with a newline, each after four spaces.
fn put_lines<W: CountedWrite>(out: &mut Buffered<'_, W>, file: &[u8])
    ensures { Puts W.output out.old out.new (indented file.now) }
{
    out.put(b"    ");
    put_bytes(out, file);
    out.put_byte(b'\n');
}

fn put_some_file<W: CountedWrite>(out: &mut Buffered<'_, W>, file: &[u8])
    ensures { Puts W.output out.old out.new (file_part file.now) }
{
    if file.is_empty() {
        out.put(b"The smallest file that has it is the empty one.\n\n");
    } else {
        out.put(b"A smallest file that has it:\n\n");
        put_lines(out, file);
        out.put_byte(b'\n');
    }
}

/// Puts a smallest file with a fault, if there is one.
fn put_file<W: CountedWrite>(out: &mut Buffered<'_, W>, fault: Fault)
    ensures { Puts W.output out.old out.new (file_text (smallest_file fault)) }
{
    if let Some(file) = fault.smallest_file() {
        put_some_file(out, file.as_bytes());
    }
}

fn put_page<W: CountedWrite>(out: &mut Buffered<'_, W>, fault: Fault)
    ensures { Puts W.output out.old out.new (page_text fault) }
{
    let page = fault.page();
    out.put(fault.name().as_bytes());
    out.put(b": ");
    out.put(page.meaning.as_bytes());
    out.put(b"\n\n");
    out.put(page.rule.as_bytes());
    out.put(b"\n\n");
    put_file(out, fault);
    out.put(page.advice.as_bytes());
    out.put_byte(b'\n');
}

fn print_page<O: CountedWrite>(fault: Fault, out: &mut O) -> Result<(), WriteError>
    ensures { Writes (O.output out.old) (O.output out.new) result (page_text fault) }
{
    let mut out = Buffered::new(out);
    put_page(&mut out, fault);
    out.flush()
}

/// Puts the fault whose name is the nearest, if one is near.
fn put_nearest<E: CountedWrite>(message: &mut Message<'_, E>, nearest: Option<Fault>) {
    if let Some(fault) = nearest {
        message.put(b"; the nearest is '");
        message.put(fault.name().as_bytes());
        message.put(b"'");
    }
}

/// Reports that no fault has the name, and the fault whose name is the nearest, if one is near. A
/// failed write changes nothing.
fn report_missing<'a, E: CountedWrite>(
    alloc: Global,
    name: &str,
    is_terminal: bool,
    err: &mut E,
) -> Result<Outcome, Failure<'a>>
    ensures ends { IfOk result (λ ended. ended ≡ CommandLine) }
    ensures memory { IfErr result (λ failure. outcome_of failure ≡ Memory) }
    ensures prints { (out : Output) → Prints (ending result) out out }
{
    let Ok(nearest) = Fault::nearest(alloc, name) else {
        return Err(Failure::Memory);
    };
    let mut message = Message::new(err, is_terminal);
    message.put(b"error: there is no fault '");
    message.put(name.as_bytes());
    message.put(b"'");
    put_nearest(&mut message, nearest);
    message.put(b"\n");
    message.send();
    Ok(Outcome::CommandLine)
}

/// Prints the page of the fault with this name.
pub fn explain<'a, I, O: CountedWrite, E: CountedWrite>(
    alloc: Global,
    name: &str,
    streams: &mut Streams<I, O, E>,
) -> Result<Outcome, Failure<'a>>
    ensures page { IfOk result
        (Explains name.now (O.output streams.old.out) (O.output streams.new.out)) }
    ensures device { IfErr result
        (FailsToExplain name.now (O.output streams.old.out) (O.output streams.new.out)) }
    ensures prints { Prints (ending result) (O.output streams.old.out) (O.output streams.new.out) }
{
    match Fault::named(name) {
        Some(fault) => match print_page(fault, &mut streams.out) {
            Ok(()) => Ok(Outcome::Done),
            Err(_) => Err(Failure::Device("stdout")),
        },
        None => report_missing(alloc, name, streams.is_terminal, &mut streams.err),
    }
}
