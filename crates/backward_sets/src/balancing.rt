//! Makes a flow of units that were put by gate. Where more units come to a node than go on, or
//! fewer, the rest is taken back. So a neighbour may have to be balanced in turn. It ends, since
//! units are only taken.

use crate::drafts::Draft;
use crate::flow::{Flow, SINK, after, before};
use crate::tables::{has_mark, set_mark};
use aig_graph::Memory;

/// The nodes that may have to be balanced.
#[derive(Drop)]
struct Balance {
    /// The variables that latches which take part read: units begin before them.
    begins: Vec<bool>,
    nodes: Vec<u32>,
}

/// Marks the variables that latches which take part read.
fn mark_begins(draft: &Draft, begins: &mut [bool]) {
    for place in 0..draft.many_latches() {
        let latch = draft.latch(place);
        if latch.takes_part() {
            set_mark(begins, latch.next.var(), true);
        }
    }
}

/// Returns the number of units that come to a node, and of those that go on from it.
fn weigh(flow: &Flow, node: u32) -> (u32, u32) {
    let (mut come, mut go) = (0u32, 0u32);
    for place in 0..flow.many_arcs(node) {
        let arc = flow.arc(node, place);
        let units = flow.units(&arc);
        if arc.adds {
            go = go.wrapping_add(units);
        } else {
            come = come.wrapping_add(units);
        }
    }
    (come, go)
}

impl Balance {
    /// Takes `most` units back from a node: of those that go on if `adds`, else of those that come.
    fn take(&mut self, memory: &mut Memory, flow: &mut Flow, node: u32, adds: bool, most: u32) {
        let mut rest = most;
        for place in 0..flow.many_arcs(node) {
            let arc = flow.arc(node, place);
            if arc.adds == adds {
                let taken = flow.take(&arc, rest);
                rest = rest.wrapping_sub(taken);
                if (taken > 0) & (arc.to != SINK) {
                    memory.push(&mut self.nodes, arc.to);
                }
            }
            if rest == 0 {
                return;
            }
        }
    }

    /// Returns true if units begin at a node.
    fn begins_at(&self, node: u32) -> bool {
        (node % 2 == 0) & has_mark(self.begins.as_slice(), node / 2)
    }

    /// Balances a node. Its neighbours may have to be balanced then.
    fn balance(&mut self, memory: &mut Memory, flow: &mut Flow, node: u32) {
        let (come, go) = weigh(flow, node);
        if come > go {
            self.take(memory, flow, node, false, come.wrapping_sub(go));
        } else if (go > come) & !self.begins_at(node) {
            self.take(memory, flow, node, true, go.wrapping_sub(come));
        }
    }

    /// Balances a node, and others until none has to be.
    fn balance_from(&mut self, memory: &mut Memory, flow: &mut Flow, node: u32) {
        self.balance(memory, flow, node);
        for _ in 0..u64::MAX {
            match self.nodes.pop() {
                Some(node) => self.balance(memory, flow, node),
                None => return,
            }
        }
    }
}

/// Takes units back until as many go on from each node as come to it.
pub fn balance_all(memory: &mut Memory, flow: &mut Flow, draft: &Draft) {
    let mut balance = Balance {
        begins: memory.table(false, draft.size()),
        nodes: memory.nothing(),
    };
    mark_begins(draft, balance.begins.as_mut_slice());
    for var in 0..draft.end() {
        balance.balance_from(memory, flow, before(var));
        if flow.may_move(var) {
            balance.balance_from(memory, flow, after(var));
        }
    }
}
