//! The units that flow through a network, by what they pass. The arcs aren't stored: those of a
//! node follow from the draft and from the gates that read the variable.

use crate::drafts::Draft;
use crate::readers::Readers;
use crate::starts::{Wish, wish_of};
use crate::tables::{entry, has_mark, number, set_entry};
use crate::units::{FanInUnits, GateUnits};
use aig_graph::Memory;

/// The node in which all units end.
pub const SINK: u32 = u32::MAX;

/// The number of arcs from after a gate that don't lead to a reader.
const OWN_ARCS: u32 = 5;

/// Returns the node before a variable.
pub fn before(var: u32) -> u32 {
    var.wrapping_mul(2)
}

/// Returns the node after a variable.
pub fn after(var: u32) -> u32 {
    before(var).wrapping_add(1)
}

/// What units are counted of.
#[derive(Clone, Copy)]
enum Counted {
    Through,
    Down,
    Up,
}

/// An arc to the node `to`. It has room for a unit if it is `open`. A unit along it adds one to the
/// entry `place` of a table, or takes one away that went the other way.
#[derive(Clone, Copy)]
pub struct Arc {
    pub to: u32,
    pub open: bool,
    counted: Counted,
    place: u32,
    pub adds: bool,
}

/// Returns a number of units in 8 bits, or the most that fits.
fn small(units: u32) -> u8 {
    units.min(255) as u8
}

/// The units that flow. They are counted by variable, or by fan-in of a gate, by its number in the
/// lists of readers.
#[derive(Drop)]
pub struct Flow<'a> {
    draft: &'a Draft,
    may: &'a [bool],
    starts: &'a [Wish],
    readers: Readers,
    /// The units from before a variable to after it, or to the sink.
    through: Vec<u32>,
    /// The units from after a gate to before its fan-in.
    down: Vec<u32>,
    /// The units from after a fan-in to after the gate.
    up: Vec<u32>,
}

impl<'a> Flow<'a> {
    /// Returns the flow of no units.
    pub fn new(
        memory: &mut Memory,
        draft: &'a Draft,
        may: &'a [bool],
        starts: &'a [Wish],
    ) -> Flow<'a> {
        let readers = Readers::of(memory, draft, may);
        let fan_ins = draft.gates.len().saturating_mul(2);
        let through = memory.table(0u32, draft.size());
        let down = memory.table(0u32, fan_ins);
        let up = memory.table(0u32, fan_ins);
        Flow {
            draft,
            may,
            starts,
            readers,
            through,
            down,
            up,
        }
    }

    /// Returns true if a variable is a gate that may move.
    pub fn may_move(&self, var: u32) -> bool {
        has_mark(self.may, var)
    }

    /// Returns the most units from before a variable to after it, or to the sink.
    fn room(&self, var: u32) -> u32 {
        if wish_of(self.starts, var).is_both() {
            2
        } else {
            1
        }
    }

    /// Returns the number of the larger fan-in of a gate.
    fn larger_of(&self, var: u32) -> u32 {
        var.wrapping_sub(self.draft.first_gate()).wrapping_mul(2)
    }

    /// Puts the units along a fan-in, which reads `var`. If that may not move, they end there, as
    /// many as have room.
    fn put_fan_in(&mut self, number: u32, var: u32, units: FanInUnits) {
        let down = u32::from(units.down);
        set_entry(self.down.as_mut_slice(), number, down);
        if self.may_move(var) {
            set_entry(self.up.as_mut_slice(), number, u32::from(units.up));
        } else {
            let many = entry(self.through.as_slice(), var).saturating_add(down);
            let many = many.min(self.room(var));
            set_entry(self.through.as_mut_slice(), var, many);
        }
    }

    /// Puts the units of a gate.
    fn put_gate(&mut self, var: u32, units: &GateUnits) {
        let pair = self.draft.gate(var);
        let larger = self.larger_of(var);
        let through = u32::from(units.through);
        set_entry(self.through.as_mut_slice(), var, through);
        self.put_fan_in(larger, pair.larger.var(), units.larger);
        self.put_fan_in(larger.wrapping_add(1), pair.smaller.var(), units.smaller);
    }

    /// Puts the units of the gates that may move, in a flow of no units.
    pub fn put_all(&mut self, units: &[GateUnits]) {
        let first = self.draft.first_gate();
        for place in 0..units.len() {
            let var = first.wrapping_add(number(place));
            if self.may_move(var) {
                self.put_gate(var, &units[place]);
            }
        }
    }

    /// Returns the units along a fan-in.
    fn fan_in(&self, number: u32) -> FanInUnits {
        FanInUnits {
            down: small(entry(self.down.as_slice(), number)),
            up: small(entry(self.up.as_slice(), number)),
        }
    }

    /// Writes the units of all gates.
    pub fn write_all(&self, all: &mut [GateUnits]) {
        let first = self.draft.first_gate();
        for place in 0..all.len() {
            let var = first.wrapping_add(number(place));
            let larger = self.larger_of(var);
            let units = GateUnits {
                through: self.may_move(var) & (entry(self.through.as_slice(), var) > 0),
                larger: self.fan_in(larger),
                smaller: self.fan_in(larger.wrapping_add(1)),
            };
            all[place] = units;
        }
    }

    /// Returns the number of units that reach the sink.
    pub fn ended(&self) -> u32 {
        let mut many = 0u32;
        for var in 0..self.draft.end() {
            if !self.may_move(var) {
                many = many.wrapping_add(entry(self.through.as_slice(), var));
            }
        }
        many
    }

    /// Returns the number of nodes.
    pub fn nodes(&self) -> usize {
        self.draft.size().saturating_mul(2)
    }

    /// Returns the number of arcs from a node.
    pub fn many_arcs(&self, node: u32) -> u32 {
        let var = node / 2;
        let readers = self.readers.end(var).wrapping_sub(self.readers.begin(var));
        let own = if node % 2 == 0 { 1 } else { OWN_ARCS };
        readers.saturating_add(own)
    }

    /// Returns the arc from before a variable to after it, or to the sink.
    fn through(&self, var: u32) -> Arc {
        Arc {
            to: if self.may_move(var) { after(var) } else { SINK },
            open: entry(self.through.as_slice(), var) < self.room(var),
            counted: Counted::Through,
            place: var,
            adds: true,
        }
    }

    /// Returns the arc that takes a unit back that came through a variable.
    fn back(&self, var: u32) -> Arc {
        Arc {
            to: before(var),
            open: entry(self.through.as_slice(), var) > 0,
            counted: Counted::Through,
            place: var,
            adds: false,
        }
    }

    /// Returns the arc from after a gate to before its fan-in `number`, which reads `var`.
    fn down(&self, number: u32, var: u32) -> Arc {
        Arc {
            to: before(var),
            open: true,
            counted: Counted::Down,
            place: number,
            adds: true,
        }
    }

    /// Returns the arc that takes a unit back that went down to fan-in `number`.
    fn back_down(&self, number: u32) -> Arc {
        Arc {
            to: after(self.readers.gate_of(number)),
            open: entry(self.down.as_slice(), number) > 0,
            counted: Counted::Down,
            place: number,
            adds: false,
        }
    }

    /// Returns the arc from after fan-in `number` to after its gate.
    fn up(&self, number: u32) -> Arc {
        Arc {
            to: after(self.readers.gate_of(number)),
            open: true,
            counted: Counted::Up,
            place: number,
            adds: true,
        }
    }

    /// Returns the arc that takes a unit back that went up from fan-in `number`, which reads `var`.
    fn back_up(&self, number: u32, var: u32) -> Arc {
        Arc {
            to: after(var),
            open: entry(self.up.as_slice(), number) > 0,
            counted: Counted::Up,
            place: number,
            adds: false,
        }
    }

    /// Returns an arc from before a variable, by its place: first the one that goes through it.
    fn arc_before(&self, var: u32, place: u32) -> Arc {
        if place == 0 {
            return self.through(var);
        }
        let first = self.readers.begin(var).wrapping_sub(1);
        self.back_down(self.readers.fan_in_at(first.wrapping_add(place)))
    }

    /// Returns an arc from after a gate, by its place: first those to before its fan-ins.
    fn arc_after(&self, var: u32, place: u32) -> Arc {
        if place >= OWN_ARCS {
            let first = self.readers.begin(var).wrapping_sub(OWN_ARCS);
            return self.up(self.readers.fan_in_at(first.wrapping_add(place)));
        }
        let pair = self.draft.gate(var);
        let larger = self.larger_of(var);
        let smaller = larger.wrapping_add(1);
        match place {
            0 => self.down(smaller, pair.smaller.var()),
            1 => self.down(larger, pair.larger.var()),
            2 => self.back(var),
            3 => self.back_up(smaller, pair.smaller.var()),
            _ => self.back_up(larger, pair.larger.var()),
        }
    }

    /// Returns an arc from a node, by its place.
    pub fn arc(&self, node: u32, place: u32) -> Arc {
        if node % 2 == 0 {
            self.arc_before(node / 2, place)
        } else {
            self.arc_after(node / 2, place)
        }
    }

    /// Returns the units along an arc. Where a unit along it takes one back, they are those that go
    /// the other way.
    pub fn units(&self, arc: &Arc) -> u32 {
        let units = match arc.counted {
            Counted::Through => self.through.as_slice(),
            Counted::Down => self.down.as_slice(),
            Counted::Up => self.up.as_slice(),
        };
        entry(units, arc.place)
    }

    /// Sets the number of units along an arc.
    fn set_units(&mut self, arc: &Arc, many: u32) {
        let units = match arc.counted {
            Counted::Through => self.through.as_mut_slice(),
            Counted::Down => self.down.as_mut_slice(),
            Counted::Up => self.up.as_mut_slice(),
        };
        set_entry(units, arc.place, many);
    }

    /// Takes back units along an arc, at most `most`. Returns their number.
    pub fn take(&mut self, arc: &Arc, most: u32) -> u32 {
        let many = self.units(arc);
        let taken = many.min(most);
        if taken > 0 {
            self.set_units(arc, many.wrapping_sub(taken));
        }
        taken
    }

    /// Sends a unit along an arc.
    pub fn send(&mut self, arc: Arc) {
        let many = self.units(&arc);
        let many = if arc.adds {
            many.saturating_add(1)
        } else {
            many.saturating_sub(1)
        };
        self.set_units(&arc, many);
    }
}
