//! Adds up the units of all gates by variable. Some go on from after it to gates, others come to
//! before it from gates that read it. Nothing of a flow is trusted: units from or to a variable
//! without an entry are refused.
ghost use Rattle.std.specs.Prelude.{◌≡◌, ◌+◌, ◌*◌, ◌≤◌, ℕ, IsTrue, length, replicate};
ghost use Rattle.aig_graph.specs.Graph.{first_latch, latches_and_gates};
ghost use Rattle.unit_flows.specs.Units.{unit, weigh, ups, downs, AreTallies};

use crate::gate_flow::GateFlow;
use aig_graph::{Aig, Gate};

/// Returns 1 if `holds`, else 0.
#[tactic(auto, unfolding(crate::specs::Units::unit))]
pub(crate) fn unit(holds: bool) -> u32
    ensures value { result ≡ unit holds }
    ensures small { result ≤ 1 }
{
    if holds { 1 } else { 0 }
}

/// Returns 1 if `holds`, else 0, as a byte.
#[tactic(auto, unfolding(crate::specs::Units::unit))]
fn few(holds: bool) -> u8
    ensures { result ≡ unit holds }
{
    if holds { 1 } else { 0 }
}

/// Adds units to the entry of a variable. Returns false if there are some to be added and there is
/// no entry, or no room in it.
fn add_units(table: &mut [u32], first: u32, var: u32, units: u32) -> bool
    ensures len { length table.new ≡ length table.old }
    ensures sum { IsTrue result → (weight : ℕ → ℕ) → weigh first table.new weight
        ≡ weigh first table.old weight + units * weight var }
{
    if units == 0 {
        return true;
    }
    if var < first || (var - first) as usize >= table.len() {
        return false;
    }
    let place = (var - first) as usize;
    if table[place] > u32::MAX - units {
        return false;
    }
    table[place] += units;
    true
}

/// Adds units to the entry of a variable as [`add_units`] does, in a table of bytes. More than one
/// unit never goes on from after a variable.
fn add_few(table: &mut [u8], first: u32, var: u32, units: u8) -> bool
    ensures len { length table.new ≡ length table.old }
    ensures sum { IsTrue result → (weight : ℕ → ℕ) → weigh first table.new weight
        ≡ weigh first table.old weight + units * weight var }
{
    if units == 0 {
        return true;
    }
    if var < first || (var - first) as usize >= table.len() {
        return false;
    }
    let place = (var - first) as usize;
    if table[place] > u8::MAX - units {
        return false;
    }
    table[place] += units;
    true
}

/// Adds the units that come to before a gate from after its fan-ins. Returns false if they have no
/// entry or no room.
fn add_ups(went: &mut [u8], first: u32, gate: &Gate, flow: &GateFlow) -> bool
    ensures len { length went.new ≡ length went.old }
    ensures sum { IsTrue result → (weight : ℕ → ℕ) → weigh first went.new weight
        ≡ weigh first went.old weight + ups weight gate.now flow.now }
{
    add_few(went, first, gate.rhs1.var(), few(flow.first_up))
        && add_few(went, first, gate.rhs0.var(), few(flow.second_up))
}

/// Adds the units that go on from before a gate to before its fan-ins. Returns false if they have
/// no entry or no room.
fn add_downs(came: &mut [u32], first: u32, gate: &Gate, flow: &GateFlow) -> bool
    ensures len { length came.new ≡ length came.old }
    ensures sum { IsTrue result → (weight : ℕ → ℕ) → weigh first came.new weight
        ≡ weigh first came.old weight + downs weight gate.now flow.now }
{
    add_units(came, first, gate.rhs1.var(), u32::from(flow.first_down))
        && add_units(came, first, gate.rhs0.var(), u32::from(flow.second_down))
}

/// Adds up the units of all gates in tables of zeros. Returns false if units go from or to a
/// variable without an entry, or an entry has no room. It isn't inlined, for its loop's registers.
#[inline(never)]
pub(crate) fn tally(went: &mut [u8], came: &mut [u32], aig: &Aig, flows: &[GateFlow]) -> bool
    requires flows { length flows.now ≡ length aig.now.gates }
    requires went { went.old ≡ replicate (latches_and_gates aig.now) 0 }
    requires came { came.old ≡ replicate (latches_and_gates aig.now) 0 }
    ensures { IsTrue result → AreTallies aig.now flows.now (length aig.now.gates)
        went.new came.new }
{
    let first = aig.first_latch();
    let gates = aig.gates();
    for k in 0..gates.len() {
        let (gate, flow) = (&gates[k], &flows[k]);
        if !add_ups(went, first, gate, flow) || !add_downs(came, first, gate, flow) {
            return false;
        }
    }
    true
}
