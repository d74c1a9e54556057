//! The judge's two passes. One is over the gates: no more units go on from before a gate than come
//! there, and the marks are a cut. The other is over the places of all variables, the latches' and
//! then the gates'. There, no more units go on from after a place than come to it, and what leaves
//! is marked. No more variables cross than units arrive.
ghost use Rattle.std.specs.Prelude.{◌≡◌, ◌+◌, ◌<◌, ◌≤◌, ◌==◌, ◌&&◌, ◌||◌, nat_le, not, ℕ, IsTrue, length};
ghost use Rattle.aig_graph.specs.Marking.{mark_at};
ghost use Rattle.aig_graph.specs.Graph.{first_latch, latches_and_gates, is_free};
ghost use Rattle.unit_flows.specs.Units.{unit};
ghost use Rattle.unit_flows.specs.Passes.{GateHolds, PlacesHold};

use crate::balance::gives_no_more;
use crate::cut::is_cut_at;
use crate::frame::Frame;
use crate::gate_flow::GateFlow;
use crate::tallies::unit;
use aig_graph::{Latch, Reset};

/// Returns true if no gate gives more than it gets, and the marks are a cut at each passable gate.
/// It isn't inlined, so that the loop has the registers for itself.
#[inline(never)]
pub(crate) fn gates_hold(
    frame: &Frame,
    flows: &[GateFlow],
    came: &[u32],
    before: &[bool],
    after: &[bool],
) -> bool
    requires flows { length flows.now ≡ length frame.now.circuit.now.aig.gates }
    requires came { length came.now ≡ latches_and_gates frame.now.circuit.now.aig }
    requires before { length before.now ≡ latches_and_gates frame.now.circuit.now.aig }
    requires after { length after.now ≡ latches_and_gates frame.now.circuit.now.aig }
    ensures { IsTrue result → (k : ℕ) → k < length frame.now.circuit.now.aig.gates
        → GateHolds frame.now.circuit.now frame.now.keep.now flows.now came.now
        (mark_at (first_latch frame.now.circuit.now.aig) before.now)
        (mark_at (first_latch frame.now.circuit.now.aig) after.now) k }
{
    let aig = frame.circuit.aig();
    let first = aig.first_latch();
    let first_gate = aig.first_gate();
    let latches = aig.latches().len();
    let gates = aig.gates();
    let passes = frame.passing_gates();
    for k in 0..gates.len() {
        let var = first_gate + k as u32;
        if !gives_no_more(&flows[k], came[latches + k]) {
            return false;
        }
        if passes[k] && !is_cut_at(before, after, first, first_gate, var, &gates[k]) {
            return false;
        }
    }
    true
}

/// Returns true if the latch's reset is known.
fn is_known(latch: &Latch) -> bool
    ensures { result ≡ not (is_free latch.now) }
{
    latch.reset != Reset::Free
}

/// The findings at some places: if all of them hold, the number of units that arrive there, and the
/// number of variables that cross.
#[derive(Clone, Copy)]
struct Seen {
    holds: bool,
    arrived: u32,
    crossed: u32,
}

/// Returns the findings with one more place, to which a unit `comes` and from which `went` units go
/// on. The place holds if no more go on than come, and it is `reached` if it `leaves`. A unit that
/// is left there arrives if the place leaves.
fn seen_with(seen: Seen, comes: bool, went: u8, leaves: bool, reached: bool, crosses: bool) -> Seen
    requires arrived { seen.arrived < 4294967295 }
    requires crossed { seen.crossed < 4294967295 }
    ensures holds { result.holds
        ≡ (seen.holds && (nat_le went (unit comes) && (not leaves || reached))) }
    ensures arrived { result.arrived ≡ seen.arrived + unit (leaves && comes && (went == 0)) }
    ensures crossed { result.crossed ≡ seen.crossed + unit crosses }
{
    let is_balanced = u32::from(went) <= unit(comes);
    let is_left = went == 0;
    Seen {
        holds: seen.holds & (is_balanced & (!leaves | reached)),
        arrived: seen.arrived + unit(leaves & comes & is_left),
        crossed: seen.crossed + unit(crosses),
    }
}

/// Returns true if all places hold, and no more variables cross than units arrive.
pub(crate) fn places_hold(
    frame: &Frame,
    flows: &[GateFlow],
    went: &[u8],
    before: &[bool],
    after: &[bool],
) -> bool
    requires flows { length flows.now ≡ length frame.now.circuit.now.aig.gates }
    requires went { length went.now ≡ latches_and_gates frame.now.circuit.now.aig }
    requires before { length before.now ≡ latches_and_gates frame.now.circuit.now.aig }
    requires after { length after.now ≡ latches_and_gates frame.now.circuit.now.aig }
    ensures { IsTrue result → PlacesHold frame.now.circuit.now frame.now.keep.now flows.now went.now
        (mark_at (first_latch frame.now.circuit.now.aig) before.now)
        (mark_at (first_latch frame.now.circuit.now.aig) after.now) }
{
    let latches = frame.circuit.aig().latches();
    let passes = frame.passing_gates();
    let leaving = frame.leaving.as_slice();
    let mut seen = Seen {
        holds: true,
        arrived: 0,
        crossed: 0,
    };
    for place in 0..latches.len() {
        let known = is_known(&latches[place]);
        let reached = after[place];
        let crosses = known & reached;
        seen = seen_with(seen, known, went[place], leaving[place], reached, crosses);
    }
    for k in 0..passes.len() {
        let place = latches.len() + k;
        let through = flows[k].through;
        let reached = after[place];
        let crosses = passes[k] & !before[place] & reached;
        seen = seen_with(seen, through, went[place], leaving[place], reached, crosses);
    }
    seen.holds & (seen.crossed <= seen.arrived)
}
