//! The nodes that reach the sink over residual arcs, by a walk backward from it.
//!
//! The walk sweeps over the nodes by falling number, so that rows are read in the order of memory.
//! A queue has the nodes that the sweep has already passed.
ghost use Rattle.std.specs.Prelude.{◌≡◌, ◌<◌, IfOk, OnOk, length, not, nat_lt, slice_index};
ghost use Rattle.frame_net.specs.Flow.{IsSourceSide};
ghost use Rattle.frame_net.specs.FlowNet.{node_count, row_len};
ghost use Rattle.pulse.specs.Conditions.{IsMaxPreflow, state_of};
ghost use Rattle.cut_cert.specs.Fronts.{is_marked};
ghost use Rattle.cut_cert.specs.SinkWalk.{reach_node_in_sweep, read_arcs};

use crate::reached::Reached;
use aig_graph::NoMemory;
use frame_net::Net;
use pulse::MaxPreflow;
use std::alloc::Global;

/// Returns true if an arc has a residual above 0.
fn has_residual(preflow: &MaxPreflow, arc: u32) -> bool
    requires { arc < length preflow.now.flow.cells.residuals }
    ensures { result ≡ nat_lt 0 (slice_index preflow.now.flow.cells.residuals arc) }
{
    preflow.residual(arc) > 0
}

/// Reaches a node when a sweep over the nodes, from the last down to 2, has come down to `swept`. A
/// node that the sweep is still to visit isn't queued.
fn reach_in_sweep(side: &mut Reached, node: u32, swept: u32) -> Result<(), NoMemory>
    requires { node < length side.old.marks }
    ensures { OnOk result (side.new ≡ reach_node_in_sweep swept side.old node) }
{
    if 1 < node && node < swept {
        side.mark(node);
        return Ok(());
    }
    side.reach(node)
}

/// Reaches the nodes with a residual arc to `w`. An arc from such a node is the mate of one with
/// tail `w`.
fn read(
    net: &Net,
    preflow: &MaxPreflow,
    side: &mut Reached,
    w: u32,
    swept: u32,
) -> Result<(), NoMemory>
    requires preflow { IsMaxPreflow net.now preflow.now }
    requires long { length side.old.marks ≡ node_count net.now }
    requires node { w < node_count net.now }
    ensures { OnOk result (side.new ≡ read_arcs net.now preflow.now.flow.cells.residuals swept w
        (row_len net.now w) side.old) }
{
    net.known();
    net.known_capacities();
    let heads = net.heads(w);
    let mates = net.mates(w);
    for k in 0..heads.len() {
        // Most nodes are marked by then, and a mark is cheaper to look at than a residual.
        if !side.has(heads[k]) {
            if has_residual(preflow, mates[k]) {
                reach_in_sweep(side, heads[k], swept)?;
            }
        }
    }
    Ok(())
}

/// Returns the nodes that reach the sink at the end of a run. The row of each is read once: linear
/// in the network.
///
/// Most reach it over arcs to higher nodes, so the sweep visits them and they aren't queued.
pub(crate) fn sink_side(alloc: Global, net: &Net, preflow: &MaxPreflow) -> Result<Reached, NoMemory>
    requires { IsMaxPreflow net.now preflow.now }
    ensures side { IfOk result (λ r. IsSourceSide (node_count net.now)
        (state_of net.now preflow.now.flow) (λ v. not (is_marked r v))) }
    ensures long { IfOk result (λ r. length r.marks ≡ node_count net.now) }
{
    net.known();
    let nodes = net.nodes();
    let mut side = Reached::none(alloc, nodes)?;
    side.reach(1)?;
    read(net, preflow, &mut side, 1, nodes)?;
    for v in (2..nodes).rev() {
        if side.has(v) {
            read(net, preflow, &mut side, v, v)?;
        }
    }
    let mut place = 1;
    while let Some(w) = side.queued(place) {
        read(net, preflow, &mut side, w, 2)?;
        place += 1;
    }
    Ok(side)
}
