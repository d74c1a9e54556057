//! The line of a file of a batch. A fault is put by its name and offset; its clauses say each
//! letter. What `Display` writes is only tested.
ghost use Rattle.std.specs.Prelude.{◌++◌, decimal};
ghost use Rattle.counted_io.specs.Buffered.{Puts};
ghost use Rattle.counted_io.specs.Output.{Writes};
ghost use Rattle.reports.specs.Batches.{job_line, offset_text, refusal_text, report_text};
ghost use Rattle.reports.specs.Batches as texts;

use crate::retiming::put_change;
use counted_io::{Buffered, CountedWrite, WriteError};
use file_words::ReadError;

/// What became of a file of a batch.
#[derive(Clone, Copy)]
pub enum JobReport {
    /// It was retimed, from the first number of latches to the second.
    Done(u32, u32),
    /// It is no circuit.
    Refused(ReadError),
    /// Memory for it was refused.
    NoMemory,
    /// A name that is to be held is that of no latch.
    NoSuchName,
    /// A position that is to be held is that of no latch.
    NoSuchLatch,
    /// No reading has a line of the classes that are to be merged.
    Misread,
    /// A latch that is to be merged isn't shown to agree with its first.
    NotShown,
}

fn put_offset<W: CountedWrite>(out: &mut Buffered<'_, W>, offset: Option<u64>)
    ensures { Puts W.output out.old out.new (offset_text offset) }
{
    match offset {
        Some(at) => {
            out.put(b" at ");
            out.put_number(at);
        }
        None => {}
    }
}

fn put_refusal<W: CountedWrite>(out: &mut Buffered<'_, W>, fault: ReadError)
    ensures { Puts W.output out.old out.new (refusal_text fault) }
{
    out.put(b" refused ");
    out.put(fault.name().as_bytes());
    put_offset(out, fault.offset());
    out.put_byte(b'\n');
}

fn put_done<W: CountedWrite>(out: &mut Buffered<'_, W>, before: u32, after: u32)
    ensures { Puts W.output out.old out.new (texts.done_text before after) }
{
    out.put(b" done ");
    put_change(out, u64::from(before), u64::from(after));
}

fn put_report<W: CountedWrite>(out: &mut Buffered<'_, W>, report: JobReport)
    ensures { Puts W.output out.old out.new (report_text report) }
{
    match report {
        JobReport::Done(before, after) => put_done(out, before, after),
        JobReport::Refused(fault) => put_refusal(out, fault),
        JobReport::NoMemory => out.put(b" memory\n"),
        JobReport::NoSuchName => out.put(b" refused NoSuchName\n"),
        JobReport::NoSuchLatch => out.put(b" refused NoSuchLatch\n"),
        JobReport::Misread => out.put(b" refused Misread\n"),
        JobReport::NotShown => out.put(b" refused NotShown\n"),
    }
}

fn put_job<W: CountedWrite>(out: &mut Buffered<'_, W>, number: u64, report: JobReport)
    ensures { Puts W.output out.old out.new (job_line number report) }
{
    out.put_number(number);
    put_report(out, report);
}

/// Prints the line of a file of a batch; files are numbered from 1 on.
///
/// Takes no memory.
///
/// # Errors
///
/// `Device` if a write failed: a beginning of the line was written then, and the writer isn't
/// called again.
pub fn print_job<W: CountedWrite>(
    number: u64,
    report: JobReport,
    writer: &mut W,
) -> Result<(), WriteError>
    ensures { Writes (W.output writer.old) (W.output writer.new) result (job_line number report) }
{
    let mut out = Buffered::new(writer);
    put_job(&mut out, number, report);
    out.flush()
}
