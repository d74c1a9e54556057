//! Wide circuits: many units of a few latches and gates, side by side, or joined into two
//! components.
use aag_text::{Counted, CountedWrite, ReadError, read_aag};
use aig_graph::Circuit;
use counted_io::Buffered;
use std::alloc::Global;

/// A fan-in of a unit's gate: a latch of the unit, or its gate of a kind.
#[derive(Clone, Copy)]
pub(crate) enum FanIn {
    Latch(u64),
    Kind(u64),
}

/// Has `count` units of `latches` latches, which read inputs. Each unit has a gate of each of the
/// `kinds`, of a larger and a smaller fan-in. The gates of the first `outputs` kinds are outputs.
/// Each half of the units may be joined: a gate for each two units that follow one another reads
/// their gates of a kind. It is an output, so it isn't in a least set if it reads outputs.
#[derive(Clone, Copy)]
pub(crate) struct Units {
    pub(crate) count: u64,
    pub(crate) latches: u64,
    pub(crate) kinds: &'static [[FanIn; 2]],
    pub(crate) outputs: u64,
    pub(crate) joined: Option<FanIn>,
}

/// Two latches and their gate.
pub(crate) const PAIR: &[[FanIn; 2]] = &[[FanIn::Latch(1), FanIn::Latch(0)]];

/// A gate of the first and the third latch, one of that gate and the second latch, and one of both
/// later latches. A start brings two of the three units of a block's latches to the sink, and
/// leaves one in each.
pub(crate) const BLOCK: &[[FanIn; 2]] = &[
    [FanIn::Latch(2), FanIn::Latch(0)],
    [FanIn::Kind(0), FanIn::Latch(1)],
    [FanIn::Latch(2), FanIn::Latch(1)],
];

/// A race of seven latches, of which the gates of the first five kinds are outputs. A start takes
/// the units of the second and the fourth latch through the first two gates. It takes that of the
/// fifth up the last three, which lead nowhere. Then three are left that could all come to before
/// the third gate, and one of them can go through. The start from the sink down brings that one,
/// but loses one at the fourth and fifth gate.
pub(crate) const RACE: &[[FanIn; 2]] = &[
    [FanIn::Latch(1), FanIn::Latch(0)],
    [FanIn::Latch(3), FanIn::Latch(2)],
    [FanIn::Latch(3), FanIn::Latch(1)],
    [FanIn::Latch(5), FanIn::Latch(5)],
    [FanIn::Latch(6), FanIn::Latch(5)],
    [FanIn::Kind(2), FanIn::Latch(4)],
    [FanIn::Kind(5), FanIn::Latch(4)],
    [FanIn::Kind(6), FanIn::Latch(4)],
];

impl Units {
    /// Returns the circuit.
    pub(crate) fn circuit(&self, alloc: Global) -> Result<Circuit, ReadError> {
        let mut text = Counted::new(Vec::new(alloc));
        self.put(&mut text);
        let bytes = text.into_inner();
        let circuit = read_aag(alloc, bytes.as_slice());
        drop(bytes);
        circuit
    }

    /// Puts the circuit's text. If memory is refused, an end of it is missing.
    fn put<W: CountedWrite>(&self, text: &mut W) {
        let mut out = Buffered::new(text);
        let joins = match self.joined {
            Some(_) => self.count.saturating_sub(2),
            None => 0,
        };
        let gates = self.count.saturating_mul(self.kinds.len() as u64);
        let outputs = self.count.saturating_mul(self.outputs);
        self.put_head(
            &mut out,
            outputs.saturating_add(joins),
            gates.saturating_add(joins),
        );
        self.put_latches(&mut out, outputs.saturating_add(joins));
        for kind in 0..self.kinds.len() {
            self.put_kind(&mut out, kind as u64, &self.kinds[kind]);
        }
        if let Some(joined) = self.joined {
            self.put_joins(&mut out, joined, gates);
        }
        let _ = out.flush();
    }

    /// Puts the head of the file.
    fn put_head<W: CountedWrite>(&self, out: &mut Buffered<'_, W>, outputs: u64, gates: u64) {
        let latches = self.count.saturating_mul(self.latches);
        let variables = latches.saturating_mul(2).saturating_add(gates);
        out.put(b"aag ");
        out.put_line(&[variables, latches, latches, outputs, gates]);
    }

    /// Puts the inputs, the latches and `outputs` outputs.
    fn put_latches<W: CountedWrite>(&self, out: &mut Buffered<'_, W>, outputs: u64) {
        let latches = self.count.saturating_mul(self.latches);
        for latch in 0..latches {
            out.put_line(&[literal(latch)]);
        }
        for latch in 0..latches {
            out.put_line(&[literal(latch.saturating_add(latches)), literal(latch)]);
        }
        for gate in 0..outputs {
            out.put_line(&[literal(gate.saturating_add(latches).saturating_add(latches))]);
        }
    }

    /// Returns the number of the variable of a fan-in of one of the units.
    fn number(&self, fan_in: FanIn, unit: u64) -> u64 {
        match fan_in {
            FanIn::Latch(latch) => self
                .count
                .saturating_add(unit)
                .saturating_mul(self.latches)
                .saturating_add(latch),
            FanIn::Kind(kind) => self
                .latches
                .saturating_mul(2)
                .saturating_add(kind)
                .saturating_mul(self.count)
                .saturating_add(unit),
        }
    }

    /// Puts the gates of a kind.
    fn put_kind<W: CountedWrite>(
        &self,
        out: &mut Buffered<'_, W>,
        kind: u64,
        fan_ins: &[FanIn; 2],
    ) {
        let [larger, smaller] = *fan_ins;
        for unit in 0..self.count {
            out.put_line(&[
                literal(self.number(FanIn::Kind(kind), unit)),
                literal(self.number(larger, unit)),
                literal(self.number(smaller, unit)),
            ]);
        }
    }

    /// Puts the gates that join the units, which come after `gates` others.
    fn put_joins<W: CountedWrite>(&self, out: &mut Buffered<'_, W>, joined: FanIn, gates: u64) {
        let latches = self.count.saturating_mul(self.latches);
        let mut next = latches.saturating_mul(2).saturating_add(gates);
        for unit in 1..self.count {
            if unit != self.count / 2 {
                out.put_line(&[
                    literal(next),
                    literal(self.number(joined, unit)),
                    literal(self.number(joined, unit.saturating_sub(1))),
                ]);
                next = next.saturating_add(1);
            }
        }
    }
}

/// Returns the literal of the variable with a number, from 0.
fn literal(number: u64) -> u64 {
    number.saturating_add(1).saturating_mul(2)
}
