//! The gates of the source's side of the greatest least cut.
ghost use Rattle.std.specs.Prelude.{◌≡◌, ◌<◌, IfOk, [], false, length, not, slice_index_or};
ghost use Rattle.frame_net.specs.Flow.{IsSourceSide};
ghost use Rattle.frame_net.specs.FlowNet.{node_count};
ghost use Rattle.pulse.specs.Conditions.{IsMaxPreflow, state_of};
ghost use Rattle.cut_cert.specs.Gates.{gate_of_node, gates_of_nodes_below};
ghost use Rattle.cut_cert.specs.Cuts.{IsGreatestLeastOf};

use crate::sink_side::sink_side;
use aig_graph::{ClosedSet, NoMemory};
use frame_net::Net;
use pulse::MaxPreflow;
use std::alloc::Global;

/// Marks the nodes that reach the sink.
fn marks_of(alloc: Global, net: &Net, preflow: &MaxPreflow) -> Result<Vec<bool>, NoMemory>
    requires { IsMaxPreflow net.now preflow.now }
    ensures side { IfOk result (λ marks. IsSourceSide (node_count net.now)
        (state_of net.now preflow.now.flow) (λ v. not (slice_index_or marks.items v false))) }
    ensures long { IfOk result (λ marks. length marks.items ≡ node_count net.now) }
{
    let side = sink_side(alloc, net, preflow)?;
    Ok(side.into_marks())
}

/// Returns the gate that `node` stands before, if the node isn't marked.
fn gate_of(net: &Net, marks: &[bool], node: u32) -> Option<u32>
    requires node { node < node_count net.now }
    requires long { length marks.now ≡ node_count net.now }
    ensures { result ≡ gate_of_node net.now (λ u. not (slice_index_or marks.now u false)) node }
{
    if marks[node as usize] {
        return None;
    }
    match net.point(node) {
        Some(point) if !point.behind => Some(point.var),
        _ => None,
    }
}

/// Returns the gates with an unmarked node before them, in the order of the nodes.
fn gates_of(alloc: Global, net: &Net, marks: &[bool]) -> Result<Vec<u32>, NoMemory>
    requires { length marks.now ≡ node_count net.now }
    ensures { IfOk result (λ gates. gates.items ≡ gates_of_nodes_below net.now
        (λ u. not (slice_index_or marks.now u false)) (node_count net.now)) }
{
    let mut gates = Vec::new(alloc);
    for v in 0..net.nodes() {
        if let Some(gate) = gate_of(net, marks, v) {
            gates.push(gate)?;
        }
    }
    Ok(gates)
}

/// Returns the greatest least set of the circuit with network `net`, by any maximum preflow of that
/// network. Linear in the network.
///
/// The nodes of a circuit's network stand in the order of its gates, so the gates rise. If those of
/// another network don't, the empty set is returned.
pub fn greatest_cut(alloc: Global, net: &Net, preflow: &MaxPreflow) -> Result<ClosedSet, NoMemory>
    requires { IsMaxPreflow net.now preflow.now }
    ensures { IfOk result (IsGreatestLeastOf net.now) }
{
    let marks = marks_of(alloc, net, preflow)?;
    let gates = gates_of(alloc, net, marks.as_slice())?;
    match ClosedSet::new(gates) {
        Some(set) => Ok(set),
        None => Ok(no_gates(alloc)),
    }
}

/// Returns the empty set.
fn no_gates(alloc: Global) -> ClosedSet
    ensures { result ≡ [] }
{
    ClosedSet::new(Vec::new(alloc)).unwrap()
}
