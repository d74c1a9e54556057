//! One walk back from the sink.
ghost use Rattle.std.specs.Prelude.{◌≡◌, ◌<◌, [], IfOk, OnOk, MatchOption, length, reverse};
ghost use Rattle.frame_net.specs.FlowNet.{node_count};
ghost use Rattle.cut_cert.specs.Walks.{AreOn, AreSearched, Comes, StepsBack, Stays, WalkedBack, points_of};

use crate::carried::{incoming, lower};
use crate::trail::{come_to, push_marked, take_points};
use aig_graph::NoMemory;
use frame_net::{Net, Point};
use std::alloc::Global;

/// Goes back from a node over an arc that carries flow, takes one unit off it, and returns its
/// tail. Returns `None` at the source.
fn step_back(net: &Net, carried: &mut [u32], places: &mut [usize], at: u32) -> Option<u32>
    requires node { at < node_count net.now }
    requires long { length carried.old ≡ length net.now.heads }
    requires searched { AreSearched net.now carried.old places.old }
    ensures step { MatchOption result (Stays net.now carried.old carried.new at)
        (λ tail. StepsBack net.now carried.old carried.new at tail) }
    ensures searched { AreSearched net.now carried.new places.new }
{
    net.known();
    let _point = net.point(at)?;
    let place = incoming(net, carried, at, places[at as usize])?;
    places[at as usize] = place;
    Some(lower(net, carried, at, place))
}

/// Walks a route back from the sink, and returns its nodes, the last first.
///
/// Each walked arc carried a unit, which is taken off it. The first is the mate of the sink's arc
/// at place `end`. If the walk comes back to a node, the loop is left out.
fn walk(
    alloc: Global,
    net: &Net,
    carried: &mut [u32],
    places: &mut [usize],
    marks: &mut [bool],
    end: usize,
) -> Result<Vec<u32>, NoMemory>
    requires comes { Comes net.now carried.old 1 end }
    requires long { length carried.old ≡ length net.now.heads }
    requires searched { AreSearched net.now carried.old places.old }
    requires sized { length marks.old ≡ node_count net.now }
    requires clear { AreOn (length marks.old) marks.old [] }
    ensures route { IfOk result (λ nodes. WalkedBack net.now carried.old carried.new
        (points_of net.now (reverse nodes.items))) }
    ensures searched { OnOk result (AreSearched net.now carried.new places.new) }
    ensures on { IfOk result (λ nodes. AreOn (length marks.old) marks.new (reverse nodes.items)) }
{
    net.known();
    let mut at = lower(net, carried, 1, end);
    let mut nodes = Vec::new(alloc);
    while let Some(tail) = step_back(net, carried, places, at) {
        push_marked(&mut nodes, marks, at)?;
        come_to(&mut nodes, marks, tail);
        at = tail;
    }
    Ok(nodes)
}

/// Takes one unit off the route that ends with the mate of the sink's arc at place `end`, and
/// returns the route.
pub(crate) fn next_route(
    alloc: Global,
    net: &Net,
    carried: &mut [u32],
    places: &mut [usize],
    marks: &mut [bool],
    end: usize,
) -> Result<Vec<Point>, NoMemory>
    requires comes { Comes net.now carried.old 1 end }
    requires long { length carried.old ≡ length net.now.heads }
    requires searched { AreSearched net.now carried.old places.old }
    requires sized { length marks.old ≡ node_count net.now }
    requires clear { AreOn (length marks.old) marks.old [] }
    ensures route { IfOk result (λ route. WalkedBack net.now carried.old carried.new route.items) }
    ensures searched { OnOk result (AreSearched net.now carried.new places.new) }
    ensures clear { OnOk result (AreOn (length marks.old) marks.new []) }
{
    let mut nodes = walk(alloc, net, carried, places, marks, end)?;
    take_points(alloc, net, &mut nodes, marks)
}
