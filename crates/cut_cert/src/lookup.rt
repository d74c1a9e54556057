//! The search for the arc from a node to a point.
ghost use Rattle.std.specs.Prelude.{◌≡◌, ℕ, ◌<◌, MatchOption, Some, true};
ghost use Rattle.frame_net.specs.FlowNet.{node_count, row_len, head, point_of};
ghost use Rattle.cut_cert.specs.Steps.{precedes, PointsRise};

use frame_net::{Net, Point};

/// Returns true if `node` comes before the node of a point. The source and the sink come before
/// all.
fn comes_before(net: &Net, node: u32, point: Point) -> bool
    requires { node < node_count net.now }
    ensures { result ≡ precedes (point_of net.now node) (Some point) }
{
    match net.point(node) {
        Some(own) => own.var < point.var || own.var == point.var && !own.behind && point.behind,
        None => true,
    }
}

/// Finds the place in a node's row of the arc to the node of a point, if there is one. The heads of
/// a row stand in the order of their points, so the search is logarithmic.
pub(crate) fn place_of(net: &Net, node: u32, point: Point) -> Option<usize>
    requires { node < node_count net.now }
    ensures within { MatchOption result (Unit {0}) (λ place. place < row_len net.now node) }
    ensures there { PointsRise net.now → (k : ℕ) → k < row_len net.now node
        → point_of net.now (head net.now node k) ≡ Some point → result ≡ Some k }
{
    net.known();
    let heads = net.heads(node);
    let mut low = 0;
    let mut high = heads.len();
    while low < high {
        let middle = low + (high - low) / 2;
        if comes_before(net, heads[middle], point) {
            low = middle + 1;
        } else {
            high = middle;
        }
    }
    if low < heads.len() { Some(low) } else { None }
}
