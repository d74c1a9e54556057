//! The nodes to which residual arcs lead from the source.
ghost use Rattle.std.specs.Prelude.{◌≡◌, ◌&&◌, ◌<◌, IfOk, OnOk, false, length, slice_index_or};
ghost use Rattle.frame_net.specs.FlowNet.{node_count, row_len, head, point_of};
ghost use Rattle.cut_cert.specs.Steps.{is_behind, is_open, AreOfSource};
ghost use Rattle.cut_cert.specs.OpenWalk.{read_open};

use crate::reached::Reached;
use aig_graph::NoMemory;
use frame_net::Net;
use std::alloc::Global;

/// Returns true if a node lies after a latch or a gate.
fn is_behind(net: &Net, node: u32) -> bool
    requires { node < node_count net.now }
    ensures { result ≡ is_behind (point_of net.now node) }
{
    match net.point(node) {
        Some(point) => point.behind,
        None => false,
    }
}

/// Returns true if an arc is used and its head lies after a variable.
fn is_taken(net: &Net, used: &[bool], arc: usize, head: u32) -> bool
    requires head { head < node_count net.now }
    requires arc { arc < length used.now }
    ensures { result ≡ (is_behind (point_of net.now head) && slice_index_or used.now arc false) }
{
    is_behind(net, head) && used[arc]
}

/// Returns true if an arc of a node's row has a residual once the marked arcs are used.
fn is_open(net: &Net, used: &[bool], node: u32, place: usize) -> bool
    requires node { node < node_count net.now }
    requires place { place < row_len net.now node }
    requires long { length used.now ≡ length net.now.heads }
    ensures { result ≡ is_open net.now used.now node place }
{
    net.known();
    net.known_capacities();
    let arc = net.start(node) + place;
    let mate = net.mates(node)[place] as usize;
    used[mate] || net.cap(arc as u32) > 0 && !is_taken(net, used, arc, net.heads(node)[place])
}

/// Reaches the heads of the open arcs of a node's row.
fn read(net: &Net, used: &[bool], side: &mut Reached, node: u32) -> Result<(), NoMemory>
    requires node { node < node_count net.now }
    requires used { length used.now ≡ length net.now.heads }
    requires marks { length side.old.marks ≡ node_count net.now }
    ensures { OnOk result (side.new
        ≡ read_open net.now used.now node (row_len net.now node) side.old) }
{
    net.known();
    let heads = net.heads(node);
    for place in 0..heads.len() {
        if is_open(net, used, node, place) {
            side.reach(heads[place])?;
        }
    }
    Ok(())
}

/// Marks the nodes to which open arcs lead from the source. A node enters the queue once and each
/// arc is looked at once: linear in the network.
pub(crate) fn source_side(alloc: Global, net: &Net, used: &[bool]) -> Result<Vec<bool>, NoMemory>
    requires { length used.now ≡ length net.now.heads }
    ensures { IfOk result (λ marks. AreOfSource net.now used.now marks.items) }
{
    net.known();
    let mut side = Reached::none(alloc, net.nodes())?;
    side.reach(0)?;
    let mut place = 0;
    while let Some(node) = side.queued(place) {
        read(net, used, &mut side, node)?;
        place += 1;
    }
    Ok(side.into_marks())
}
