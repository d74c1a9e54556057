//! Pushes of a node in a pulse: to nodes whose label is one less, in order of rising heads.
//!
//! A node reads the flow that the last pulse left. No arc is pushed from both ends, and labels
//! don't change before the pulse ends, so what other nodes push meanwhile makes no difference.

use crate::nodes::Nodes;
use crate::parts::{Arc, Kept, Part, Push};
use crate::search::{Before, Search};
use crate::spots::{label_after, label_before, labels_at, spot_at};
use unit_flows::GateFlow;

/// The way of a unit after a place: on to before a gate, or none, and a new label of the node.
enum Way {
    To(u32),
    Stays(u32),
}

impl<'a> Search<'a> {
    /// Returns the way of the unit after `place`: to the first node with the label `below`. That is
    /// the node before its own gate or one before a reader. No other node changes this node's arcs
    /// in a pulse, so the label of a node that keeps its unit is known at once.
    fn way(&self, place: u32, below: u32, part: &mut Part) -> Way {
        let labels = self.labels.as_slice();
        let mut least = label_before(labels, place);
        if least == below {
            return Way::To(place);
        }
        let readers = self.readers.at(place);
        for k in 0..readers.len() {
            part.count(1);
            let at = label_before(labels, readers[k]);
            if at == below {
                return Way::To(readers[k]);
            }
            least = least.min(at);
        }
        Way::Stays(least.saturating_add(1))
    }

    /// Returns the push of the unit after `place` to before the gate at `to`: its own, or a reader.
    fn push_to(&self, place: u32, to: u32) -> Push {
        Push {
            arc: if place == to { Arc::Back } else { Arc::Up },
            second: self.came_from(to, place).0,
            tail: place,
            head: to,
            units: 1,
        }
    }

    /// Reads what the node after a place does with its unit.
    fn read_after(&self, place: u32, part: &mut Part) {
        if spot_at(self.spots.as_slice(), place).is_observed {
            part.list(Push::out(place));
            return;
        }
        let below = label_after(self.labels.as_slice(), place).saturating_sub(1);
        match self.way(place, below, part) {
            Way::To(to) => part.list(self.push_to(place, to)),
            Way::Stays(label) => part.keep_after(Kept {
                place,
                units: 1,
                label,
            }),
        }
    }

    /// Pushes units to before a fan-in, as many as there is room for. Then pushes one home to after
    /// that fan-in, if one came from there. Returns the number of units that stay.
    fn push_to_fan_in(&self, node: &Before, second: bool, units: u32, part: &mut Part) -> u32 {
        if units == 0 {
            return 0;
        }
        let head = node.fan_ins.at(second);
        let at = labels_at(self.labels.as_slice(), head);
        let push = Push {
            arc: Arc::Down,
            second,
            tail: node.place,
            head,
            units: GateFlow::MOST_DOWN.saturating_sub(node.flow.down(second)),
        };
        let mut left = units;
        if at.before == node.below {
            left = part.list_most(push, left);
        }
        if node.flow.up(second) & (at.after == node.below) {
            let home = Push {
                arc: Arc::Home,
                units: 1,
                ..push
            };
            left = part.list_most(home, left);
        }
        left
    }

    /// Pushes a unit through the gate, if none goes there. Returns the number of units that stay.
    fn push_through(&self, node: &Before, units: u32, part: &mut Part) -> u32 {
        let label = label_after(self.labels.as_slice(), node.place);
        if node.flow.through | (label != node.below) {
            return units;
        }
        let through = Push {
            arc: Arc::Through,
            second: false,
            tail: node.place,
            head: node.place,
            units: 1,
        };
        part.list_most(through, units)
    }

    /// Pushes units back to the readers that they came from. Returns the number of units that stay.
    fn push_up(&self, node: &Before, units: u32, part: &mut Part) -> u32 {
        let labels = self.labels.as_slice();
        let readers = self.readers.at(node.place);
        let mut left = units;
        for k in 0..readers.len() {
            if left == 0 {
                return 0;
            }
            part.count(1);
            let reader = readers[k];
            if label_before(labels, reader) == node.below {
                let (second, came) = self.came_from(reader, node.place);
                let lift = Push {
                    arc: Arc::Lift,
                    second,
                    tail: node.place,
                    head: reader,
                    units: came,
                };
                left = part.list_most(lift, left);
            }
        }
        left
    }

    /// Pushes units over all arcs from before a gate. Returns the number of units that stay.
    fn push_all(&self, node: &Before, units: u32, part: &mut Part) -> u32 {
        let mut left = self.push_to_fan_in(node, false, units, part);
        left = self.push_to_fan_in(node, true, left, part);
        left = self.push_through(node, left, part);
        self.push_up(node, left, part)
    }

    /// Reads what the node before a gate pushes, and what it keeps.
    fn read_before(&self, place: u32, part: &mut Part) {
        if !self.is_gate(place) {
            return;
        }
        let node = self.before(place);
        let units = self.push_all(&node, spot_at(self.spots.as_slice(), place).excess, part);
        if units > 0 {
            let label = self.raised_before(&node, part);
            part.keep_before(Kept {
                place,
                units,
                label,
            });
        }
    }

    /// Reads what a worker's own nodes before `places`, or after them, do.
    fn read_all(&self, places: &[u32], are_before: bool, part: &mut Part) {
        let range = part.range;
        for k in 0..places.len() {
            let place = places[k];
            if range.has(place) {
                part.count(4);
                if are_before {
                    self.read_before(place, part);
                } else {
                    self.read_after(place, part);
                }
            }
        }
    }

    /// Reads what those of the active nodes do that are a worker's own.
    pub fn read(&self, actives: &Nodes, part: &mut Part) {
        part.clear();
        self.read_all(actives.after.as_slice(), false, part);
        self.read_all(actives.before.as_slice(), true, part);
    }
}
