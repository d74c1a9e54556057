//! The opened circuit: loads in the place of next literals, the holds beside it, and the class of
//! each latch.

use crate::candidates::Candidates;
use crate::literals::literal_of;
use crate::opening::{OpenLatch, Opening, PLAIN, STAYS};
use crate::sweeps::with_gates_read;
use crate::walks::Split;
use crate::ways::{Way, splits_of};
use aig_graph::{Circuit, Keep, Latch, Lit, Memory};
use backward_sets::{Literal, number};
use checked_tables::entry_or;

/// How the latches of a circuit are opened.
#[derive(Drop)]
struct Splits {
    /// By latch how it is opened, if it is.
    of_latches: Vec<Option<Split>>,
    /// The codes of the holds, rising, each once.
    codes: Vec<u32>,
}

/// Returns the codes of the holds, rising, each once.
fn hold_codes(memory: &mut Memory, splits: &[Option<Split>]) -> Vec<u32> {
    let mut codes = memory.nothing();
    for split in splits {
        if let Some(split) = split {
            memory.push(&mut codes, split.hold.code);
        }
    }
    codes.sort_unstable();
    codes.dedup();
    codes
}

/// Returns a latch that isn't opened.
fn closed_latch(latch: &Latch, position: u32, keep: &Keep) -> OpenLatch {
    let mut closed = OpenLatch {
        load: literal_of(latch.next),
        reset: latch.reset,
        class: PLAIN,
        origin: position,
        held: keep.has(position),
    };
    if !closed.may_move() {
        closed.class = STAYS;
    }
    closed
}

impl Splits {
    /// Returns the ways in which latches are opened, with their holds.
    fn of(memory: &mut Memory, of_latches: Vec<Option<Split>>) -> Splits {
        let codes = hold_codes(memory, of_latches.as_slice());
        Splits { of_latches, codes }
    }

    /// Returns the class of a hold: one more than its place among the codes.
    fn class_of(&self, hold: Literal) -> u32 {
        match self.codes.as_slice().binary_search(&hold.code) {
            Ok(place) => number(place).wrapping_add(1),
            Err(_) => STAYS,
        }
    }

    /// Returns the latches of a circuit, opened.
    fn open(&self, memory: &mut Memory, latches: &[Latch], keep: &Keep) -> Vec<OpenLatch> {
        let mut opened = memory.list(latches.len());
        for place in 0..latches.len() {
            let mut latch = closed_latch(&latches[place], number(place), keep);
            if let Some(split) = entry_or(self.of_latches.as_slice(), place, None) {
                latch.load = split.load;
                latch.class = self.class_of(split.hold);
            }
            memory.push(&mut opened, latch);
        }
        opened
    }
}

/// Returns literals as those of a draft.
fn literals_of(memory: &mut Memory, lits: &[Lit]) -> Vec<Literal> {
    let mut literals = memory.list(lits.len());
    for lit in lits {
        memory.push(&mut literals, literal_of(*lit));
    }
    literals
}

/// Returns the literals with these codes.
fn coded(memory: &mut Memory, codes: &[u32]) -> Vec<Literal> {
    let mut literals = memory.list(codes.len());
    for code in codes {
        memory.push(&mut literals, Literal { code: *code });
    }
    literals
}

/// Returns a circuit opened in a way, whose properties read `properties`. If there are marks, only
/// marked latches are opened.
pub fn opened(
    memory: &mut Memory,
    circuit: &Circuit,
    properties: &[Lit],
    keep: &Keep,
    candidates: &Candidates,
    way: Way,
    only: Option<&[bool]>,
) -> Opening {
    let aig = circuit.aig();
    let of_latches = splits_of(memory, candidates, aig.latches().len(), way, only);
    let splits = Splits::of(memory, of_latches);
    let opening = Opening {
        inputs: aig.inputs(),
        latches: splits.open(memory, aig.latches(), keep),
        gates: memory.nothing(),
        observed: literals_of(memory, properties),
        holds: coded(memory, splits.codes.as_slice()),
    };
    with_gates_read(memory, opening, candidates.sharing.gates())
}
