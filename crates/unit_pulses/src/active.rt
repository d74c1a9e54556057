//! The nodes with units that could still come to the sink.

use crate::nodes::Nodes;
use crate::spots::{FAR, Labels, Spot, labels_at, spot_at};
use unit_starts::narrow;

/// Lists the labelled nodes at which units are left.
pub(crate) fn list_actives(spots: &[Spot], labels: &[Labels], actives: &mut Nodes) {
    for place in 0..narrow(spots.len()) {
        let (spot, at) = (spot_at(spots, place), labels_at(labels, place));
        if (spot.excess > 0) & (at.before < FAR) {
            actives.push_before(place);
        }
        if spot.waits & (at.after < FAR) {
            actives.push_after(place);
        }
    }
}
