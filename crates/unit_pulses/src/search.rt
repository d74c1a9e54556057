//! The tables of a flow by place: the flow at gates, the units at places, and their readers.

use crate::fan_ins::FanIns;
use crate::nodes::Nodes;
use crate::readers::Readers;
use crate::spots::{Labels, Spot, label_before};
use aig_graph::{Gate, Memory};
use unit_flows::GateFlow;
use unit_starts::{Region, narrow};

/// The node before a gate in a pulse, with the label to which it pushes (`below`).
#[derive(Clone, Copy)]
pub(crate) struct Before {
    pub place: u32,
    pub fan_ins: FanIns,
    pub flow: GateFlow,
    pub below: u32,
}

/// A flow of units over the gates of a region, with the tables of its pulses.
pub(crate) struct Search<'a> {
    pub region: Region<'a>,
    /// The number of latches, which is the place of the first gate.
    pub latches: u32,
    pub readers: Readers,
    pub labels: Vec<Labels>,
    pub spots: Vec<Spot>,
    pub flows: Vec<GateFlow>,
}

impl<'a> Drop for Search<'a> {
    // written out: docs/PROOFS.md, Drops and exits
    fn drop(self) {
        let Search {
            region: _region,
            latches: _latches,
            readers: _readers,
            labels: _labels,
            spots: _spots,
            flows: _flows,
        } = self;
    }
}

impl<'a> Search<'a> {
    /// Returns the tables of a flow. `marks` are empty, or say by place if units could come to the
    /// sink from before it.
    pub fn new(
        memory: &mut Memory,
        region: &Region<'a>,
        marks: &[bool],
        flows: Vec<GateFlow>,
    ) -> Search<'a> {
        let mut spots = memory.table(Spot::NONE, region.places());
        set_spots(spots.as_mut_slice(), region, marks);
        note_all(spots.as_mut_slice(), region, flows.as_slice());
        Search {
            region: *region,
            latches: narrow(region.latches.len()),
            readers: Readers::none(memory),
            labels: memory.table(Labels::NONE, region.places()),
            spots,
            flows,
        }
    }

    /// Makes lists of readers, if nodes are active and there are no lists yet.
    pub fn list_readers(&mut self, memory: &mut Memory, actives: &Nodes) {
        if self.readers.are_none() & !actives.is_empty() {
            self.readers = Readers::of(memory, &self.region);
        }
    }

    pub fn into_flows(self) -> Vec<GateFlow> {
        let Search {
            region: _region,
            latches: _latches,
            readers: _readers,
            labels: _labels,
            spots: _spots,
            flows,
        } = self;
        flows
    }

    /// Returns the number of the gate at `place`, past all gates if there is none.
    fn number(&self, place: u32) -> usize {
        place.wrapping_sub(self.latches) as usize
    }

    pub fn is_gate(&self, place: u32) -> bool {
        self.number(place) < self.region.gates.len()
    }

    pub fn fan_ins(&self, place: u32) -> FanIns {
        let number = self.number(place);
        let gates = self.region.gates;
        if number < gates.len() {
            FanIns::of(&gates[number], self.region.first)
        } else {
            FanIns::NONE
        }
    }

    pub fn flow(&self, place: u32) -> GateFlow {
        flow_at(self.flows.as_slice(), self.number(place))
    }

    /// Returns the node before the gate at `place`.
    pub fn before(&self, place: u32) -> Before {
        Before {
            place,
            fan_ins: self.fan_ins(place),
            flow: self.flow(place),
            below: label_before(self.labels.as_slice(), place).saturating_sub(1),
        }
    }

    /// Returns true if `reader` reads `place` by its second fan-in. The number is that of the units
    /// that went from before the reader down to before that place.
    pub fn came_from(&self, reader: u32, place: u32) -> (bool, u32) {
        let second = self.fan_ins(reader).is_second(place);
        (second, self.flow(reader).down(second))
    }
}

/// Returns the flow at gate `number`, nothing past the end.
fn flow_at(flows: &[GateFlow], number: usize) -> GateFlow {
    if number < flows.len() {
        flows[number]
    } else {
        GateFlow::none()
    }
}

/// Sets what stands at each place before any gate has done anything. A unit has come after each
/// known latch, and waits there if no arc leads to the sink. So does one after each passable gate;
/// [`note_all`] takes it away if nothing goes through. From before a place units could come to the
/// sink, unless its mark says that they can't.
fn set_spots(spots: &mut [Spot], region: &Region, marks: &[bool]) {
    for place in 0..spots.len() {
        let holds = region.is_passable(place) | region.is_known_latch(place);
        let is_observed = holds & region.leaves(place);
        spots[place] = Spot {
            excess: 0,
            reaches: holds & (place >= marks.len() || marks[place]),
            is_observed,
            waits: holds & !is_observed,
            is_open: false,
        };
    }
}

/// Adds units to the node before `place`.
fn add_before(spots: &mut [Spot], place: u32, units: u32) {
    let place = place as usize;
    if place < spots.len() {
        spots[place].excess = spots[place].excess.saturating_add(units);
    }
}

/// Notes the units of a gate at a fan-in. `came` says that one came to before the gate from after
/// the fan-in. `went` is the number that went on to before the fan-in.
fn note_fan_in(spots: &mut [Spot], place: u32, fan_in: u32, came: bool, went: u32) {
    if came {
        add_before(spots, place, 1);
        let fan_in = fan_in as usize;
        if fan_in < spots.len() {
            spots[fan_in].waits = false;
        }
    }
    if went > 0 {
        add_before(spots, fan_in, went);
    }
}

/// Notes the units that go on from before a gate. All that came there have to be noted before.
fn note_going(spots: &mut [Spot], place: u32, flow: &GateFlow) {
    let goes = u32::from(flow.through)
        .saturating_add(flow.down(false))
        .saturating_add(flow.down(true));
    let place = place as usize;
    if place < spots.len() {
        spots[place].excess = spots[place].excess.saturating_sub(goes);
        spots[place].waits = spots[place].waits & flow.through;
    }
}

/// Notes the flow at the gate at `place`.
#[inline(always)]
fn note(spots: &mut [Spot], place: u32, gate: &Gate, first: u32, flow: &GateFlow) {
    if flow.is_none() {
        let place = place as usize;
        if place < spots.len() {
            spots[place].waits = false;
        }
        return;
    }
    let FanIns { smaller, larger } = FanIns::of(gate, first);
    note_fan_in(spots, place, smaller, flow.first_up, flow.down(false));
    note_fan_in(spots, place, larger, flow.second_up, flow.down(true));
    note_going(spots, place, flow);
}

/// Notes the flow at all gates, from the last to the first: so readers are noted before a gate.
fn note_all(spots: &mut [Spot], region: &Region, flows: &[GateFlow]) {
    let (gates, first) = (region.gates, region.first);
    let mut place = narrow(region.places());
    for k in (0..gates.len()).rev() {
        place = place.wrapping_sub(1);
        note(spots, place, &gates[k], first, &flow_at(flows, k));
    }
}
