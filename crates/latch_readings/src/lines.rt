//! The lines that say a reading, and the reading that lines say.
ghost use Rattle.std.specs.Prelude.{◌≡◌, ◌<◌, IfOk, length};
ghost use Rattle.merged_circuits.specs.Lines.{merged_lines};
ghost use Rattle.merged_circuits.specs.Readings.{own_reading};
ghost use Rattle.latch_readings.specs.Judgements.{IsLineFor, IsReadingOf};

use aig_graph::{Aig, Lit, NoMemory, Sequence};
use certificates::MergedLatch;
use clean::own_literal;
use std::alloc::Global;

/// Returns a line for each latch that doesn't read as itself.
///
/// # Errors
///
/// `NoMemory` if memory is refused.
pub fn merged_lines(
    alloc: Global,
    aig: &Aig,
    reads: &[Lit],
) -> Result<Sequence<MergedLatch>, NoMemory>
    requires { length reads.now ≡ length aig.now.latches }
    ensures { IfOk result (λ lines. lines ≡ merged_lines aig.now reads.now) }
{
    let mut lines = Vec::new(alloc);
    for (place, lit) in reads.iter().enumerate() {
        let own = own_literal(aig, place);
        if *lit != own {
            lines.push(MergedLatch {
                latch: own.var(),
                reads: *lit,
            })?;
        }
    }
    Ok(Sequence::from_vec(lines))
}

/// What lines say that latches read as.
#[derive(Drop)]
pub enum LineReading {
    /// What each latch reads as.
    Reads(Vec<Lit>),
    /// The latch of the first line that names no latch behind those of the lines before, or says
    /// that a latch reads as itself.
    Misread(u32),
}

/// Returns what the latch at a place reads as by the line at another. There is nothing if that
/// isn't the latch's line, or says its own literal.
fn line_for(aig: &Aig, lines: &[MergedLatch], at: usize, place: usize) -> Option<Lit>
    requires { place < length aig.now.latches }
    ensures { IsLineFor aig.now lines.now at place result }
{
    let own = own_literal(aig, place);
    let line = lines.get(at)?;
    if line.latch == own.var() && line.reads != own {
        Some(line.reads)
    } else {
        None
    }
}

/// Returns the reading that lines say. Whether latches may read so isn't asked.
///
/// # Errors
///
/// `NoMemory` if memory is refused.
pub fn reading_of(alloc: Global, aig: &Aig, lines: &[MergedLatch]) -> Result<LineReading, NoMemory>
    ensures { IfOk result (IsReadingOf aig.now lines.now) }
{
    let mut reads = Vec::with_capacity(alloc, aig.latches().len())?;
    let mut at = 0;
    for place in 0..aig.latches().len() {
        match line_for(aig, lines, at, place) {
            Some(lit) => {
                reads.push(lit)?;
                at += 1;
            }
            None => reads.push(own_literal(aig, place))?,
        }
    }
    match lines.get(at) {
        Some(line) => Ok(LineReading::Misread(line.latch)),
        None => Ok(LineReading::Reads(reads)),
    }
}

/// Returns the reading in which each latch reads as itself.
///
/// # Errors
///
/// `NoMemory` if memory is refused.
pub fn own_reading(alloc: Global, aig: &Aig) -> Result<Vec<Lit>, NoMemory>
    ensures { IfOk result (λ reads. reads.items ≡ own_reading aig.now) }
{
    let mut reads = Vec::with_capacity(alloc, aig.latches().len())?;
    for place in 0..aig.latches().len() {
        reads.push(own_literal(aig, place))?;
    }
    Ok(reads)
}
