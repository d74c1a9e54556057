//! The arcs that routes use.
ghost use Rattle.std.specs.Prelude.{◌≡◌, ℕ, ◌+◌, ◌<◌, IfOk, OnOk, MatchOption, Some, true, List, length, slice_set, replicate, false};
ghost use Rattle.frame_net.specs.FlowNet.{node_count, row_len, head, start, point_of};
ghost use Rattle.cut_cert.specs.Steps.{PointsRise, IsWay, Adds, AreUsed};

use crate::lookup::place_of;
use aig_graph::NoMemory;
use certificates::Routes;
use frame_net::{Net, Point};
use std::alloc::Global;

/// Marks the arc from a node to that of a point, and returns its head.
fn mark_step(net: &Net, used: &mut [bool], node: u32, point: Point) -> Option<u32>
    requires node { node < node_count net.now }
    requires long { length used.old ≡ length net.now.heads }
    ensures long { length used.new ≡ length used.old }
    ensures head { MatchOption result (Unit {0}) (λ next. next < node_count net.now) }
    ensures there { PointsRise net.now → (k : ℕ) → k < row_len net.now node
        → point_of net.now (head net.now node k) ≡ Some point
        → (result ≡ Some (head net.now node k))
        × (used.new ≡ slice_set used.old (start net.now node + k) true) }
{
    net.known();
    let place = place_of(net, node, point)?;
    used[net.start(node) + place] = true;
    Some(net.heads(node)[place])
}

/// Marks the arcs of a route from the source.
fn mark_route(net: &Net, used: &mut [bool], route: &[Point])
    requires { length used.old ≡ length net.now.heads }
    ensures long { length used.new ≡ length used.old }
    ensures marks { PointsRise net.now → (nodes : List ℕ) → IsWay net.now 0 nodes route.now
        → Adds net.now used.old used.new 0 nodes }
{
    net.known();
    let mut node = 0;
    for point in route {
        match mark_step(net, used, node, *point) {
            Some(next) => node = next,
            None => return,
        }
    }
}

/// Marks the arcs of the routes.
fn mark_routes(net: &Net, used: &mut [bool], routes: &Routes)
    requires long { length used.old ≡ length net.now.heads }
    requires none { used.old ≡ replicate (length net.now.heads) false }
    ensures { AreUsed net.now routes.now used.new }
{
    for number in 0..routes.len() {
        mark_route(net, used, routes.route(number));
    }
}

/// Returns `count` marks, none of which is set.
pub(crate) fn no_marks(alloc: Global, count: usize) -> Result<Vec<bool>, NoMemory>
    ensures { IfOk result (λ marks. marks.items ≡ replicate count false) }
{
    let marks = vec![in alloc; false; count]?;
    Ok(marks)
}

/// Returns marks of the arcs of the routes, from the source to their last points.
pub(crate) fn used_arcs(alloc: Global, net: &Net, routes: &Routes) -> Result<Vec<bool>, NoMemory>
    ensures { IfOk result (λ used. AreUsed net.now routes.now used.items) }
{
    let mut used = no_marks(alloc, net.arcs())?;
    mark_routes(net, used.as_mut_slice(), routes);
    Ok(used)
}
