//! The parts of a pulse: a worker has a range of places, and owns what stands there.
//!
//! In the read phase it lists what its active nodes push, and writes nothing else. In the delivery
//! phase it goes through the lists of all workers, and writes what they change at its places. So
//! the result of a pulse depends on no order of nodes, and on no number of workers.

use crate::nodes::Nodes;
use aig_graph::Memory;
use unit_flows::GateFlow;

/// An arc between a gate's nodes, or between one of them and a node of a fan-in.
#[derive(Clone, Copy)]
pub(crate) enum Arc {
    /// From before the gate to after it.
    Through,
    /// From after the gate back to before it.
    Back,
    /// From after the fan-in to before the gate.
    Up,
    /// From before the gate back to after the fan-in.
    Home,
    /// From before the gate to before the fan-in.
    Down,
    /// From before the fan-in back to before the gate.
    Lift,
    /// From after a latch or gate to the sink.
    Out,
}

impl Arc {
    /// Returns true if the arc leads from after a place.
    pub fn is_from_after(self) -> bool {
        matches!(self, Arc::Back | Arc::Up | Arc::Out)
    }

    /// Returns true if the arc leads to after a place.
    pub fn is_to_after(self) -> bool {
        matches!(self, Arc::Through | Arc::Home)
    }

    /// Returns true if the arc leads from a node of a fan-in to before a gate.
    fn is_from_fan_in(self) -> bool {
        matches!(self, Arc::Up | Arc::Lift)
    }
}

/// The place of the sink, which no worker owns.
const SINK: u32 = u32::MAX;

/// Units that a node pushes over an arc, by the places of the nodes that it leads from and to.
#[derive(Clone, Copy)]
pub(crate) struct Push {
    pub arc: Arc,
    /// True if the arc is one of the second fan-in.
    pub second: bool,
    pub tail: u32,
    pub head: u32,
    pub units: u32,
}

impl Push {
    /// Returns the push of the unit after `place` to the sink.
    pub fn out(place: u32) -> Push {
        Push {
            arc: Arc::Out,
            second: false,
            tail: place,
            head: SINK,
            units: 1,
        }
    }

    /// Returns the place of the gate whose flow the push changes.
    pub fn gate(&self) -> u32 {
        if self.arc.is_from_fan_in() {
            self.head
        } else {
            self.tail
        }
    }

    /// Changes the flow of that gate as the push does.
    pub fn note(&self, flow: &mut GateFlow) {
        let (second, units) = (self.second, self.units);
        match self.arc {
            Arc::Through => flow.through = true,
            Arc::Back => flow.through = false,
            Arc::Up => flow.note_up(second),
            Arc::Home => flow.clear_up(second),
            Arc::Down => flow.note_down(second, flow.down(second).saturating_add(units)),
            Arc::Lift => flow.note_down(second, flow.down(second).saturating_sub(units)),
            Arc::Out => {}
        }
    }
}

/// A node that keeps units in a pulse, and the label that it gets if none come to it.
#[derive(Clone, Copy)]
pub(crate) struct Kept {
    pub place: u32,
    pub units: u32,
    pub label: u32,
}

/// The places that a worker owns, from the first up to the end.
#[derive(Clone, Copy)]
pub struct Range {
    pub first: u32,
    pub end: u32,
}

/// Returns the first place of worker `worker`'s range if `workers` workers share `places` places.
fn border(worker: u32, workers: u32, places: usize) -> u32 {
    let places = places.min(u32::MAX as usize) as u32;
    let border = u64::from(worker) * u64::from(places) / u64::from(workers.max(1));
    border.min(u64::from(u32::MAX)) as u32
}

impl Range {
    /// Returns the range of worker `worker` if `workers` workers share `places` places.
    pub(crate) fn of(worker: u32, workers: u32, places: usize) -> Range {
        Range {
            first: border(worker, workers, places),
            end: border(worker.saturating_add(1), workers, places),
        }
    }

    pub(crate) fn has(&self, place: u32) -> bool {
        (self.first <= place) & (place < self.end)
    }
}

/// A worker's part of a read phase, in which `work` arcs were looked at.
#[derive(Drop)]
pub(crate) struct Part {
    pub worker: u32,
    pub range: Range,
    pub pushes: Vec<Push>,
    pub kept_before: Vec<Kept>,
    pub kept_after: Vec<Kept>,
    pub work: usize,
    /// True if memory was refused for a list, so that something is missing.
    pub refused: bool,
}

impl Part {
    /// Returns the part of worker `worker` among `workers` workers, before it has read.
    pub fn of(memory: &Memory, worker: u32, workers: u32, places: usize) -> Part {
        Part {
            worker,
            range: Range::of(worker, workers, places),
            pushes: memory.nothing(),
            kept_before: memory.nothing(),
            kept_after: memory.nothing(),
            work: 0,
            refused: false,
        }
    }

    pub fn clear(&mut self) {
        self.pushes.clear();
        self.kept_before.clear();
        self.kept_after.clear();
        self.work = 0;
    }

    /// Counts `arcs` more arcs that were looked at.
    pub fn count(&mut self, arcs: usize) {
        self.work = self.work.wrapping_add(arcs);
    }

    /// Lists a push.
    pub fn list(&mut self, push: Push) {
        let refused = self.pushes.push(push).is_err();
        self.refused = self.refused | refused;
    }

    /// Lists a push of `units` over the arc of `most`, or of `most.units` if those are fewer,
    /// unless it is of none. Returns the number of units that stay.
    pub fn list_most(&mut self, most: Push, units: u32) -> u32 {
        let sent = units.min(most.units);
        if sent > 0 {
            self.list(Push {
                units: sent,
                ..most
            });
        }
        units.saturating_sub(sent)
    }

    /// Lists a node before a gate that keeps units.
    pub fn keep_before(&mut self, kept: Kept) {
        let refused = self.kept_before.push(kept).is_err();
        self.refused = self.refused | refused;
    }

    /// Lists a node after a place that keeps its unit.
    pub fn keep_after(&mut self, kept: Kept) {
        let refused = self.kept_after.push(kept).is_err();
        self.refused = self.refused | refused;
    }
}

/// A worker's part of a delivery phase. It has the nodes of its places to which units came, and the
/// labels of its nodes before gates that kept some.
#[derive(Drop)]
pub(crate) struct Delivery {
    pub next: Nodes,
    pub labels: Vec<u32>,
}

impl Delivery {
    pub fn none(memory: &Memory) -> Delivery {
        Delivery {
            next: Nodes::none(memory),
            labels: memory.nothing(),
        }
    }

    pub fn clear(&mut self) {
        self.next.clear();
        self.labels.clear();
    }

    /// Lists the label of the next node that kept units.
    pub fn push_label(&mut self, label: u32) {
        let refused = self.labels.push(label).is_err();
        self.next.refused = self.next.refused | refused;
    }
}
