//! The gates of the near side.
ghost use Rattle.std.specs.Prelude.{◌≡◌, ◌<◌, IfOk, [], length, slice_index_or, false};
ghost use Rattle.frame_net.specs.FlowNet.{node_count};
ghost use Rattle.cut_cert.specs.Gates.{gate_of_node, gates_of_nodes_below};
ghost use Rattle.cut_cert.specs.Shown.{IsSmallestLeastBy};

use crate::source_side::source_side;
use crate::used_arcs::used_arcs;
use aig_graph::{ClosedSet, NoMemory};
use certificates::Routes;
use frame_net::Net;
use std::alloc::Global;

/// Returns the gate that `node` stands before, if the node is marked.
fn gate_of(net: &Net, marks: &[bool], node: u32) -> Option<u32>
    requires node { node < node_count net.now }
    requires long { length marks.now ≡ node_count net.now }
    ensures { result ≡ gate_of_node net.now (λ u. slice_index_or marks.now u false) node }
{
    if !marks[node as usize] {
        return None;
    }
    match net.point(node) {
        Some(point) if !point.behind => Some(point.var),
        _ => None,
    }
}

/// Returns the gates with a marked node before them, in the order of the nodes.
fn gates_of(alloc: Global, net: &Net, marks: &[bool]) -> Result<Vec<u32>, NoMemory>
    requires { length marks.now ≡ node_count net.now }
    ensures { IfOk result (λ gates. gates.items ≡ gates_of_nodes_below net.now
        (λ u. slice_index_or marks.now u false) (node_count net.now)) }
{
    let mut gates = Vec::new(alloc);
    for v in 0..net.nodes() {
        if let Some(gate) = gate_of(net, marks, v) {
            gates.push(gate)?;
        }
    }
    Ok(gates)
}

/// Returns the smallest least set of the circuit with network `net`, by its routes as
/// [`crate::routes`] finds them.
///
/// Other right routes serve too. No two of them may pass after one variable, and none may have a
/// point twice. There must be one for each variable of a least set's border. With wrong routes it
/// returns some set of gates.
///
/// Linear in the network and in the points of the routes, but for a search in a row for each point.
///
/// # Errors
///
/// `NoMemory` if a table or the list of gates is refused.
pub fn near_cut(alloc: Global, net: &Net, routes: &Routes) -> Result<ClosedSet, NoMemory>
    ensures { IfOk result (IsSmallestLeastBy net.now routes.now) }
{
    net.known();
    let used = used_arcs(alloc, net, routes)?;
    let side = source_side(alloc, net, used.as_slice())?;
    let gates = gates_of(alloc, net, side.as_slice())?;
    match ClosedSet::new(gates) {
        Some(set) => Ok(set),
        None => Ok(no_gates(alloc)),
    }
}

/// Returns the empty set.
fn no_gates(alloc: Global) -> ClosedSet
    ensures { result ≡ [] }
{
    ClosedSet::new(Vec::new(alloc)).unwrap()
}
