//! A file of a batch, and what becomes of it.
ghost use Rattle.std.specs.Prelude.{◌≡◌, ◌<◌, ◌^◌, length};
ghost use Rattle.batch_pool.specs.declared.job.Outcome.TheVariants.{Done};
ghost use Rattle.batch_pool.specs.Outcomes.{IsOutcome};
ghost use Rattle.batch_pool.specs.Refusals.{of_fault, of_error};

use counted_io::Counted;
use file_words::ReadError;
use frame_runs::{BytesError, Options, RetimeError};
use frames::retime_bytes;
use merging_rounds::Rounds;
use pulse::{Crew, OpenGate};
use std::alloc::Global;
use std::thread::Threads;

/// A file to be retimed.
#[derive(Drop)]
pub struct Job {
    /// The bytes of a circuit in either spelling.
    pub bytes: Vec<u8>,
}

/// What became of a file.
#[derive(Drop)]
pub enum Outcome {
    /// The circuit was retimed.
    Done {
        /// The text of the retimed circuit.
        bytes: Vec<u8>,
        /// How many latches the circuit that was read has.
        before: u32,
        /// How many latches the retimed circuit has.
        after: u32,
        /// How many frames were taken.
        frames: u32,
    },
    /// The bytes are no circuit.
    Refused(ReadError),
    /// Memory for this file was refused.
    NoMemory,
    /// Latches are to be held by name, and the name at this place, from 0, is the first that no
    /// latch has.
    NoSuchName(usize),
    /// Latches are to be held by position, and the one at this place, from 0, is the first that no
    /// latch has.
    NoSuchLatch(usize),
    /// Latches are to be merged by given classes, and no reading has the line of this latch.
    Misread(u32),
    /// Latches are to be merged by given classes, and this one isn't shown to agree with its first.
    NotShown(u32),
}

/// Returns the outcome of a circuit that was retimed, and its text.
fn done(rounds: Rounds, bytes: Vec<u8>) -> Outcome
    requires { length rounds.frames < 2 ^ 32 }
    ensures { result ≡ Done bytes rounds.read_latches (length rounds.circuit.aig.latches)
        (length rounds.frames) }
{
    let before = rounds.read_latches;
    let after = rounds.circuit.aig().latches().len() as u32;
    let frames = rounds.frames.as_slice().len() as u32;
    drop(rounds);
    Outcome::Done {
        bytes,
        before,
        after,
        frames,
    }
}

/// Returns the outcome of bytes in memory that were not read as a circuit. Reads of them don't
/// fail.
fn of_fault(fault: ReadError) -> Outcome
    ensures { result ≡ of_fault fault }
{
    match fault {
        ReadError::NoMemory | ReadError::Device => Outcome::NoMemory,
        fault => Outcome::Refused(fault),
    }
}

/// Returns the outcome of bytes in memory that were not retimed, or whose text was not written into
/// memory. A write there fails only if memory is refused.
fn of_error(error: BytesError) -> Outcome
    ensures { result ≡ of_error error }
{
    match error {
        BytesError::Read(fault) => of_fault(fault),
        BytesError::Retime(RetimeError::NoMemory) => Outcome::NoMemory,
        BytesError::Retime(RetimeError::NoSuchName(place)) => Outcome::NoSuchName(place),
        BytesError::Retime(RetimeError::NoSuchLatch(place)) => Outcome::NoSuchLatch(place),
        BytesError::Retime(RetimeError::Misread(latch)) => Outcome::Misread(latch),
        BytesError::Retime(RetimeError::NotShown(latch)) => Outcome::NotShown(latch),
        BytesError::Write(_) => Outcome::NoMemory,
    }
}

/// Retimes the bytes of a file by one worker.
pub(crate) fn retime_file<R: Threads + Sync>(
    rt: &R,
    alloc: Global,
    bytes: &[u8],
    options: &Options,
) -> Outcome
    ensures { IsOutcome bytes.now options.now result }
{
    let _max_frames = options.max_frames;
    let mut reader = Counted::new(bytes);
    let mut writer = Counted::new(Vec::new(alloc));
    let crew = Crew::new(1, OpenGate);
    match retime_bytes(rt, alloc, &mut reader, &mut writer, options, &crew) {
        Ok(rounds) => done(rounds, writer.into_inner()),
        Err(error) => of_error(error),
    }
}
