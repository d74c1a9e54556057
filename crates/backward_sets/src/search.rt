//! A flow grows in rounds. In a round a way is looked for from before each variable that latches
//! read, depth first. What a search has visited without finding a way leads to no way later, so it
//! is never visited again. It may be if the search was stopped by what another one had visited.
//! What the others visited is visited again at once, as long as that is cheap, or else in the next
//! round.

use crate::drafts::Draft;
use crate::flow::{Flow, SINK, before};
use crate::tables::number;
use aig_graph::Memory;
use checked_tables::{entry_or, put_if_there};

/// What is known of a node.
#[derive(Clone, Copy, PartialEq, Eq)]
enum Sight {
    /// Nothing was visited.
    Unseen,
    /// The search under way has visited it.
    Now,
    /// Another search of the round has visited it.
    Passed,
    /// No way leads on from it any more.
    Dead,
}

/// The result of a step of a search.
#[derive(Clone, Copy)]
enum Progress {
    On,
    Found,
    Ended,
}

/// A node, and the place of the arc that is looked at.
#[derive(Clone, Copy)]
struct Step {
    node: u32,
    place: u32,
}

/// A search for ways along which units may go.
#[derive(Drop)]
pub struct Search {
    /// The nodes of the way before the one at which the search is.
    way: Vec<Step>,
    at: Step,
    sights: Vec<Sight>,
    /// The nodes that aren't dead and were visited in the round.
    visited: Vec<u32>,
    /// The number of them when the search under way began.
    begun: usize,
    /// True if the search under way was stopped by what another one had visited.
    stopped: bool,
    /// The number of nodes that may be visited again at once.
    spare: usize,
}

/// Returns what is known of a node.
fn sight_of(sights: &[Sight], node: u32) -> Sight {
    entry_or(sights, node as usize, Sight::Dead)
}

/// Sets what is known of a node.
fn set_sight(sights: &mut [Sight], node: u32, sight: Sight) {
    put_if_there(sights, node as usize, sight);
}

/// Sets what is known of the nodes of a list from `first` on.
fn set_sights(sights: &mut [Sight], nodes: &[u32], first: usize, sight: Sight) {
    for place in first..nodes.len() {
        set_sight(sights, nodes[place], sight);
    }
}

impl Search {
    /// Returns a search that has visited no node.
    pub fn new(memory: &mut Memory, nodes: usize) -> Search {
        let sights = memory.table(Sight::Unseen, nodes);
        Search {
            way: memory.nothing(),
            at: Step { node: 0, place: 0 },
            sights,
            visited: memory.nothing(),
            begun: 0,
            stopped: false,
            spare: 0,
        }
    }

    /// Goes to a node that wasn't visited.
    fn visit(&mut self, memory: &mut Memory, node: u32) {
        set_sight(self.sights.as_mut_slice(), node, Sight::Now);
        memory.push(&mut self.visited, node);
        self.at = Step { node, place: 0 };
    }

    /// Goes back along the way's last arc, to the one after it.
    fn back(&mut self) -> Progress {
        match self.way.pop() {
            Some(Step { node, place }) => {
                let place = place.wrapping_add(1);
                self.at = Step { node, place };
                Progress::On
            }
            None => Progress::Ended,
        }
    }

    /// Goes on along an open arc to a node, if that wasn't visited.
    fn go(&mut self, memory: &mut Memory, to: u32) {
        match sight_of(self.sights.as_slice(), to) {
            Sight::Unseen => {
                let at = self.at;
                memory.push(&mut self.way, at);
                self.visit(memory, to);
            }
            sight => {
                self.stopped = self.stopped | (sight == Sight::Passed);
                self.at.place = self.at.place.wrapping_add(1);
            }
        }
    }

    /// Looks at the next arc of the node at which the search is.
    fn step(&mut self, memory: &mut Memory, flow: &Flow) -> Progress {
        let Step { node, place } = self.at;
        if place >= flow.many_arcs(node) {
            return self.back();
        }
        let arc = flow.arc(node, place);
        if !arc.open {
            self.at.place = place.wrapping_add(1);
            return Progress::On;
        }
        if arc.to == SINK {
            return Progress::Found;
        }
        self.go(memory, arc.to);
        Progress::On
    }

    /// Sends a unit along the way that was found.
    fn send(&mut self, flow: &mut Flow) {
        let Step { node, place } = self.at;
        flow.send(flow.arc(node, place));
        for at in 0..self.way.len() {
            let Step { node, place } = self.way[at];
            flow.send(flow.arc(node, place));
        }
        self.way.truncate(0);
    }

    /// Settles what is known of the nodes that the search has visited.
    fn settle(&mut self, sight: Sight) {
        let nodes = self.visited.as_slice();
        set_sights(self.sights.as_mut_slice(), nodes, self.begun, sight);
        if sight != Sight::Passed {
            self.visited.truncate(self.begun);
        }
    }

    /// Settles what is known after a way was found.
    fn settle_found(&mut self) {
        let many = self.visited.len().saturating_sub(self.begun);
        if many <= self.spare {
            self.spare = self.spare.saturating_sub(many);
            self.settle(Sight::Unseen);
        } else {
            self.settle(Sight::Passed);
        }
    }

    /// Settles what is known after no way was found.
    fn settle_ended(&mut self) {
        let sight = if self.stopped {
            Sight::Passed
        } else {
            Sight::Dead
        };
        self.settle(sight);
    }

    /// Sends a unit from a node, if a way is found. Returns true if it is.
    fn find(&mut self, memory: &mut Memory, flow: &mut Flow, from: u32) -> bool {
        if sight_of(self.sights.as_slice(), from) != Sight::Unseen {
            return false;
        }
        self.begun = self.visited.len();
        self.stopped = false;
        self.visit(memory, from);
        for _ in 0..u64::MAX {
            match self.step(memory, flow) {
                Progress::On => {}
                Progress::Found => {
                    self.send(flow);
                    self.settle_found();
                    return !memory.is_refused();
                }
                Progress::Ended => {
                    self.settle_ended();
                    return false;
                }
            }
        }
        false
    }

    /// Sends units from a node until no way is found. Returns their number.
    fn send_all(&mut self, memory: &mut Memory, flow: &mut Flow, from: u32) -> u32 {
        let mut sent = 0u32;
        for _ in 0..u32::MAX {
            if !self.find(memory, flow, from) {
                return sent;
            }
            sent = sent.wrapping_add(1);
        }
        sent
    }

    /// Runs a round. Returns the number of units that it sends.
    fn round(&mut self, memory: &mut Memory, flow: &mut Flow, draft: &Draft) -> u32 {
        self.spare = self.sights.len();
        let mut sent = 0u32;
        for place in 0..draft.many_latches() {
            let latch = draft.latch(place);
            if latch.takes_part() {
                let from = before(latch.next.var());
                sent = sent.wrapping_add(self.send_all(memory, flow, from));
            }
        }
        sent
    }

    /// Sends units from the variables that latches read to the sink until no way is left, or memory
    /// is refused. Returns their number.
    pub fn run(&mut self, memory: &mut Memory, flow: &mut Flow, draft: &Draft) -> u32 {
        let mut total = 0u32;
        for _ in 0..u32::MAX {
            total = total.wrapping_add(self.round(memory, flow, draft));
            if (number(self.visited.len()) == 0) | memory.is_refused() {
                return total;
            }
            self.begun = 0;
            self.settle(Sight::Unseen);
        }
        total
    }

    /// Returns true if units could still go from where they begin to a node, after a run. Such a
    /// node is on the near side of the least cut that is nearest to there.
    pub fn reaches(&self, node: u32) -> bool {
        sight_of(self.sights.as_slice(), node) == Sight::Dead
    }
}
