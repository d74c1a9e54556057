//! Circuits that several tests read, their texts, sets of gates, and how circuits are retimed.
use aag_text::{Counted, write_aag};
use aig_graph::{Circuit, ClosedSet, NoMemory};
use frames::Options;
use std::alloc::Global;

/// Two inputs, a latch at each, and the gate of the latches, which is variable 5 and the output.
pub(crate) const TWO_LATCHES: &[u8] = b"aag 5 2 2 1 1\n2\n4\n6 2\n8 4\n10\n10 8 6\n";

/// Two latches in a row after each of two inputs, and the gate of the last ones, which is the
/// output.
pub(crate) const CHAINS: &[u8] = b"aag 7 2 4 1 1\n2\n4\n6 2\n8 6\n10 4\n12 10\n14\n14 8 12\n";

/// Returns true if this is the circuit's text.
pub(crate) fn is_text(alloc: Global, circuit: &Circuit, text: &[u8]) -> bool {
    let mut out = Counted::new(Vec::new(alloc));
    let written = write_aag(circuit, &mut out).is_ok();
    let bytes = out.into_inner();
    written & (bytes.as_slice() == text)
}

/// Returns true if a set was found, and has these gates.
pub(crate) fn is_set(found: Result<ClosedSet, NoMemory>, gates: &[u32]) -> bool {
    match found {
        Ok(set) => set.vars() == gates,
        Err(_) => false,
    }
}

/// Returns the set of one gate.
pub(crate) fn set_of(alloc: Global, gate: u32) -> Option<ClosedSet> {
    match Vec::from_array(alloc, [gate]) {
        Ok(vars) => ClosedSet::new(vars),
        Err(_) => None,
    }
}

/// Returns options for at most `max_frames` frames, and nothing else that is asked for.
pub(crate) fn options(alloc: Global, max_frames: u32) -> Options {
    let mut options = Options::defaults(alloc);
    options.max_frames = max_frames;
    options
}
