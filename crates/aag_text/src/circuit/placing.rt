ghost use Rattle.std.specs.Prelude.{◌<◌, ◌^◌};
ghost use Rattle.file_words.specs.declared.fault.ReadError.TheVariants.{NoMemory};
ghost use Rattle.file_words.specs.Answering.{Gives};
ghost use Rattle.aag_text.specs.Numbering.{placed_lists};

use crate::circuit::numbering;
use aig_graph::{Gate, Latch, Lit};
use ascii_file::{Places, RawGate, RawLatch};
use file_words::ReadError;
use std::alloc::Global;
use std::marker::Model;

/// All that the lists of a file read, by places. Gates stand in the order of the file.
#[derive(Drop)]
pub(crate) struct Placed {
    pub latches: Vec<Latch>,
    pub safety: Vec<Lit>,
    pub liveness: Vec<Lit>,
    pub gates: Vec<Gate>,
}

impl Model for Placed {
    ghost use Rattle.aag_text.specs.Numbering.{PlacedLists};

    ghost Value = { PlacedLists };

    ghost view = { λ p. record { latches = p.latches.items; safety = p.safety.items; liveness = p.liveness.items; gates = p.gates.items } };
}

/// Returns the lists by places, or `Undefined`.
pub(crate) fn place_all(
    alloc: Global,
    places: &Places,
    count: u32,
    latches: &[RawLatch],
    safety: &[u32],
    liveness: &[u32],
    gates: &[RawGate],
) -> Result<Placed, ReadError>
    requires few { count < 2 ^ 28 }
    ensures { Gives NoMemory (λ p. p) result (placed_lists places.now count latches.now safety.now
        liveness.now gates.now) }
{
    let latches = numbering::latches(alloc, places, count, latches)?;
    let safety = numbering::literals(alloc, places, count, safety)?;
    let liveness = numbering::literals(alloc, places, count, liveness)?;
    let gates = numbering::gates(alloc, places, count, gates)?;
    Ok(Placed {
        latches,
        safety,
        liveness,
        gates,
    })
}
