//! The start of a run that merges the latches that lines of a file name. Whether they may be merged
//! is judged, whoever wrote the file.
ghost use Rattle.std.specs.Prelude.{◌≡◌, ◌+◌, ◌<◌, All, IfOk, length};
ghost use Rattle.aig_graph.specs.Graph.{first_latch};
ghost use Rattle.merged_circuits.specs.Lines.{merged_lines};
ghost use Rattle.latch_merging.specs.Merging.{IsGivenMerging};
ghost use Rattle.latch_merging.specs.Starts.{IsGivenStart, IsGivenStartOf};

use crate::merging::{MergedCircuit, merged_with};
use crate::start::MergedStart;
use aig_graph::{Aig, Circuit, Keep, Lit, NoMemory};
use certificates::MergedLatch;
use clean::{Cleaned, clean, own_literal};
use latch_readings::{Judgement, LineReading, judge, reading_of};
use std::alloc::Global;

/// What a circuit is merged to by given lines, or why it isn't merged.
#[derive(Drop)]
pub enum GivenMerging {
    /// The latches that the lines name, and no others, read as the lines say.
    Merged(MergedCircuit),
    /// The latch of a line that no reading has, as in [`GivenStart::Misread`].
    Misread(u32),
    /// The latch of a line, which isn't shown to be told what that is told which it reads as.
    NotShown(u32),
}

/// A circuit that was cleaned and then merged by given lines, or why it isn't.
#[derive(Drop)]
pub enum GivenStart {
    /// The latches that the lines name, and no others, read as the lines say.
    Merged(MergedStart),
    /// The latch of a line that no reading has. It isn't a latch behind those of the lines before,
    /// it is free or held, or it may not read as its literal.
    Misread(u32),
    /// The latch of a line, which isn't shown to be told what that is told which it reads as.
    NotShown(u32),
}

/// Returns the variable of the latch at a place. It is that of the first gate if there is no latch.
fn variable_at(aig: &Aig, place: usize) -> u32
    ensures { place < length aig.now.latches → result ≡ first_latch aig.now + place }
{
    if place < aig.latches().len() {
        own_literal(aig, place).var()
    } else {
        aig.first_gate()
    }
}

/// Judges a list with a literal for each latch.
fn judged(
    alloc: Global,
    circuit: &Circuit,
    keep: &Keep,
    reads: Vec<Lit>,
) -> Result<GivenMerging, NoMemory>
    requires { length reads.items ≡ length circuit.now.aig.latches }
    ensures { IfOk result (IsGivenMerging keep.now circuit.now
        (merged_lines circuit.now.aig reads.items)) }
{
    let aig = circuit.aig();
    match judge(alloc, circuit, keep, reads.as_slice())? {
        Judgement::Merged(merged) => {
            let merged = merged_with(alloc, circuit, keep, merged, reads)?;
            Ok(GivenMerging::Merged(merged))
        }
        Judgement::Misread(place) => Ok(GivenMerging::Misread(variable_at(aig, place))),
        Judgement::Open(place) => Ok(GivenMerging::NotShown(variable_at(aig, place))),
    }
}

/// Merges the latches that lines name, if the judge shows that they always agree. The held latches
/// take no part. Names stay, and nothing goes.
///
/// # Errors
///
/// `NoMemory` if memory is refused.
pub fn merge_by(
    alloc: Global,
    circuit: &Circuit,
    keep: &Keep,
    lines: &[MergedLatch],
) -> Result<GivenMerging, NoMemory>
    ensures { IfOk result (IsGivenMerging keep.now circuit.now lines.now) }
{
    match reading_of(alloc, circuit.aig(), lines)? {
        LineReading::Reads(reads) => judged(alloc, circuit, keep, reads),
        LineReading::Misread(latch) => Ok(GivenMerging::Misread(latch)),
    }
}

/// Merges the latches of a cleaned circuit that lines name.
fn start_of_lines(
    alloc: Global,
    cleaned: Cleaned,
    lines: &[MergedLatch],
) -> Result<GivenStart, NoMemory>
    ensures { IfOk result (IsGivenStartOf cleaned lines.now) }
{
    let Cleaned {
        circuit: before,
        keep,
        kept_free,
        ..
    } = cleaned;
    let merging = merge_by(alloc, &before, &keep, lines);
    drop(before);
    match merging? {
        GivenMerging::Merged(
            MergedCircuit {
                circuit,
                merged,
                ..
            },
        ) => Ok(GivenStart::Merged(MergedStart {
            circuit,
            keep,
            kept_free,
            merged,
        })),
        GivenMerging::Misread(latch) => Ok(GivenStart::Misread(latch)),
        GivenMerging::NotShown(latch) => Ok(GivenStart::NotShown(latch)),
    }
}

/// Cleans a circuit, and merges the latches that lines name if the judge shows that they always
/// agree. The held latches stay and take no part.
///
/// # Errors
///
/// `NoMemory` if memory is refused.
pub fn start_by(
    alloc: Global,
    circuit: &Circuit,
    keep: &Keep,
    lines: &[MergedLatch],
) -> Result<GivenStart, NoMemory>
    requires in_range { All (λ j. j < length circuit.now.aig.latches) keep.now }
    ensures { IfOk result (IsGivenStart keep.now circuit.now lines.now) }
{
    // Tells the prover that it is a circuit.
    circuit.known();
    let cleaned = clean(alloc, circuit, keep)?;
    start_of_lines(alloc, cleaned, lines)
}
