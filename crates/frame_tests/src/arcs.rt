//! The arcs and rows of the network of the first worked circuit.
use frame_net::{Net, Point};

const HEADS: [u32; 12] = [2, 3, 5, 0, 4, 0, 4, 2, 3, 5, 1, 4];

const MATES: [u32; 12] = [3, 5, 10, 0, 7, 1, 8, 4, 6, 11, 2, 9];

const CAPS: [u32; 12] = [1, 1, 0, 0, 3, 0, 3, 0, 0, 1, 3, 0];

/// Returns true if a table has this value at a place.
pub(crate) fn is_at(values: &[u32], place: usize, value: u32) -> bool {
    place < values.len() && values[place] == value
}

fn has_arcs(net: &Net, heads: &[u32], mates: &[u32], caps: &[u32]) -> bool {
    net.known_capacities();
    let mut same = heads.len() == net.arcs();
    for k in 0..net.arcs() {
        let arc = k as u32;
        same = same
            & is_at(heads, k, net.head(arc))
            & is_at(mates, k, net.mate(arc))
            & is_at(caps, k, net.cap(arc));
    }
    same
}

/// Returns true if the rows begin at these arcs, and each gives its heads and mates.
fn has_rows(net: &Net, starts: &[u32]) -> bool {
    let mut same = starts.len() == net.nodes() as usize;
    for v in 0..net.nodes() {
        let row = net.row(v);
        same = same
            & is_at(starts, v as usize, row.start)
            & (net.start(v) == row.start as usize)
            & (net.heads(v).len() == net.mates(v).len());
    }
    same
}

/// Returns the point of node 4, if there is one.
fn fourth_point(net: &Net) -> Option<Point> {
    if 4 < net.nodes() { net.point(4) } else { None }
}

/// Returns true if the arcs and their rows are those that were worked by hand.
pub(crate) fn are_as_worked(net: &Net) -> bool {
    let before = Point {
        var: 5,
        behind: false,
    };
    has_arcs(net, &HEADS, &MATES, &CAPS)
        & has_rows(net, &[0, 2, 3, 5, 7, 10])
        & (fourth_point(net) == Some(before))
}
