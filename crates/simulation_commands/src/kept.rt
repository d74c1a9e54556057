//! Which free latches of the first of two circuits the second one has.
ghost use Rattle.std.specs.Prelude.{◌≡◌, IfErr, IfOk, true, false};
ghost use Rattle.aig_graph.specs.Streams.{AreKept};
ghost use Rattle.circuit_files.specs.Outcomes.{IsAbout};
ghost use Rattle.circuit_files.specs.Reading.{IsReadingOfStdin};
ghost use Rattle.counted_io.specs.Streams.{is_stdin, source_name};
ghost use Rattle.simulation_commands.specs.Keeping.{AreKeptOf, AreSharedAt};

use aig_graph::{Circuit, Sequence};
use circuit_files::{Failure, bytes_at};
use counted_io::{CountedRead, Source};
use lane_sim::read_kept;
use std::alloc::Global;
use std::rt::Files;

/// Which free latches of the first circuit the second one has.
#[derive(Drop)]
pub enum Shared {
    /// Each, as it has as many.
    Each,
    /// Those at these places.
    Kept(Sequence<u32>),
}

/// Reads the places of the bytes of a list.
fn kept_of<'a>(
    alloc: Global,
    bytes: &[u8],
    path: &'a str,
    first: &Circuit,
    second: &Circuit,
) -> Result<Sequence<u32>, Failure<'a>>
    ensures reads { AreKeptOf first.now second.now bytes.now path.entry result }
    ensures named { IfErr result (IsAbout path.now) }
    ensures places { IfOk result (AreKept first.now second.now) }
{
    let free = first.aig().free_latches();
    let count = second.aig().free_latches();
    match read_kept(alloc, bytes, free, count) {
        Ok(kept) => Ok(kept),
        Err(fault) => Err(Failure::of_stimulus(fault, path)),
    }
}

/// Reads the places of a list in a file or on standard input.
fn kept_at<'a, R: Files, I: CountedRead>(
    rt: &R,
    alloc: Global,
    list: Source<'a>,
    first: &Circuit,
    second: &Circuit,
    stdin: &mut I,
) -> Result<Sequence<u32>, Failure<'a>>
    ensures stdin { is_stdin list.entry ≡ true → IsReadingOfStdin (I.input stdin.old)
        (I.input stdin.new) (AreKeptOf first.now second.now) result }
    ensures file { is_stdin list.entry ≡ false → I.input stdin.new ≡ I.input stdin.old }
    ensures named { IfErr result (IsAbout (source_name list.entry)) }
    ensures places { IfOk result (AreKept first.now second.now) }
{
    match bytes_at(rt, alloc, list, stdin) {
        Ok(bytes) => {
            let kept = kept_of(alloc, bytes.as_slice(), list.name(), first, second);
            drop(bytes);
            kept
        }
        Err(failure) => Err(failure),
    }
}

/// Returns the free latches of a list, or each if there is none.
pub fn shared_by<'a, R: Files, I: CountedRead>(
    rt: &R,
    alloc: Global,
    list: Option<Source<'a>>,
    first: &Circuit,
    second: &Circuit,
    stdin: &mut I,
) -> Result<Shared, Failure<'a>>
    ensures { IfOk result (AreSharedAt list.entry first.now second.now (I.input stdin.old)
        (I.input stdin.new)) }
{
    match list {
        Some(list) => match kept_at(rt, alloc, list, first, second, stdin) {
            Ok(kept) => Ok(Shared::Kept(kept)),
            Err(failure) => Err(failure),
        },
        None => Ok(Shared::Each),
    }
}
