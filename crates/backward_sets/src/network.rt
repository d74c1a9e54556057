//! The network of a backward frame. A variable has a node before it and one after it. The arc
//! between them carries a unit for each latch that the variable would take. A unit for each next
//! literal comes to before its variable. From after a gate that may move it goes on to before its
//! fan-ins. From after such a fan-in it goes on to after each gate that reads it. From before a
//! variable that may not move it goes to the sink. So a cut has a set of gates with each gate that
//! reads a member. It costs a latch for each variable of its border, even if many members read
//! that.

use crate::balancing::balance_all;
use crate::drafts::Draft;
use crate::flow::{Flow, after};
use crate::search::Search;
use crate::starts::Wish;
use crate::tables::{has_mark, number, set_mark};
use crate::units::GateUnits;
use aig_graph::Memory;
use std::mem;

/// Marks the gates that may move and whose nodes after them a search reaches.
fn mark_near_side(may: &[bool], search: &Search, marks: &mut [bool]) {
    for var in 0..number(may.len()) {
        set_mark(marks, var, has_mark(may, var) & search.reaches(after(var)));
    }
}

/// Makes a flow of what is left of units that were kept. Returns the number of its units.
fn begin_with(memory: &mut Memory, flow: &mut Flow, draft: &Draft, kept: &[GateUnits]) -> u32 {
    if kept.is_empty() {
        return 0;
    }
    flow.put_all(kept);
    balance_all(memory, flow, draft);
    flow.ended()
}

/// Keeps the units of a flow, by gate.
fn keep(memory: &mut Memory, flow: &Flow, draft: &Draft, kept: &mut Vec<GateUnits>) {
    if kept.len() != draft.gates.len() {
        let all = memory.table(GateUnits::NONE, draft.gates.len());
        drop(mem::replace(kept, all));
    }
    flow.write_all(kept.as_mut_slice());
}

/// Returns by variable if it is in the smallest set of gates whose border takes the fewest latches,
/// and their number. The flow begins with the units that are `kept`, by gate, as far as they are
/// one; in the end its own are kept. The set doesn't depend on them.
///
/// If memory was refused, nothing is looked for, since a search goes by its tables.
pub fn least_set(
    memory: &mut Memory,
    draft: &Draft,
    may: &[bool],
    starts: &[Wish],
    kept: &mut Vec<GateUnits>,
) -> (Vec<bool>, u32) {
    let mut marks = memory.table(false, draft.size());
    let mut flow = Flow::new(memory, draft, may, starts);
    let begun = begin_with(memory, &mut flow, draft, kept.as_slice());
    let mut search = Search::new(memory, flow.nodes());
    let units = if memory.is_refused() {
        u32::MAX
    } else {
        search.run(memory, &mut flow, draft).wrapping_add(begun)
    };
    mark_near_side(may, &search, marks.as_mut_slice());
    keep(memory, &flow, draft, kept);
    (marks, units)
}
