//! The units of flow that each arc carries.
ghost use Rattle.std.specs.Prelude.{◌≡◌, ℕ, ◌<◌, ◌≤◌, IfOk, MatchOption, length, replicate};
ghost use Rattle.frame_net.specs.FlowNet.{node_count, row_len, head};
ghost use Rattle.pulse.specs.Conditions.{IsMaxPreflow};
ghost use Rattle.cut_cert.specs.Walks.{AreArcFlows, Comes, NoneComes, lowered};

use aig_graph::NoMemory;
use frame_net::Net;
use pulse::MaxPreflow;
use std::alloc::Global;

/// Returns the flow over each arc, or 0 if it goes the other way.
pub(crate) fn carried_by_arcs(
    alloc: Global,
    net: &Net,
    preflow: &MaxPreflow,
) -> Result<Vec<u32>, NoMemory>
    requires { IsMaxPreflow net.now preflow.now }
    ensures { IfOk result (λ xs. AreArcFlows net.now preflow.now.flow.cells.residuals xs.items) }
{
    net.known_capacities();
    let arcs = net.arcs();
    let mut carried = Vec::with_capacity(alloc, arcs)?;
    for arc in 0..arcs {
        let flow = net
            .cap(arc as u32)
            .saturating_sub(preflow.residual(arc as u32));
        carried.push_reserved(flow);
    }
    Ok(carried)
}

/// Finds the first place of a node's row, from `from` on, whose mate carries flow.
pub(crate) fn incoming(net: &Net, carried: &[u32], node: u32, from: usize) -> Option<usize>
    requires node { node < node_count net.now }
    requires long { length carried.now ≡ length net.now.heads }
    ensures { MatchOption result (NoneComes net.now carried.now node from (row_len net.now node))
        (λ place. Comes net.now carried.now node place
        × ((from ≤ place) × NoneComes net.now carried.now node from place)) }
{
    net.known();
    net.known_capacities();
    let mates = net.mates(node);
    for place in from..mates.len() {
        if carried[mates[place] as usize] > 0 {
            return Some(place);
        }
    }
    None
}

/// Takes one unit off the mate of the arc at `place` in the node's row, and returns that mate's
/// tail.
pub(crate) fn lower(net: &Net, carried: &mut [u32], node: u32, place: usize) -> u32
    requires comes { Comes net.now carried.old node place }
    requires long { length carried.old ≡ length net.now.heads }
    ensures carried { carried.new ≡ lowered net.now carried.old node place }
    ensures tail { result ≡ head net.now node place }
{
    net.known();
    net.known_capacities();
    let arc = net.mates(node)[place] as usize;
    carried[arc] -= 1;
    net.heads(node)[place]
}

/// Returns the first place of each node's row.
pub(crate) fn first_places(alloc: Global, nodes: u32) -> Result<Vec<usize>, NoMemory>
    ensures { IfOk result (λ places. places.items ≡ replicate nodes 0) }
{
    let places = vec![in alloc; 0; nodes as usize]?;
    Ok(places)
}
