//! New labels of nodes before gates that keep units: one more than the least label to which an arc
//! leads after the pulse.
//!
//! Such a node has filled each arc to a label that is one less than its own. Units that come to it
//! make arcs back to labels that are one more.

use crate::parts::Part;
use crate::search::{Before, Search};
use crate::spots::{FAR, label_after, label_before, labels_at};

/// Returns `label` if an arc leads there that isn't filled: one to `below` is filled. Else [`FAR`].
fn near(label: u32, below: u32, leads: bool) -> u32 {
    if leads & (label != below) { label } else { FAR }
}

impl<'a> Search<'a> {
    /// Returns the least label to which an arc leads from before a gate, readers aside.
    fn least_near(&self, node: &Before) -> u32 {
        let label = label_after(self.labels.as_slice(), node.place);
        near(label, node.below, !node.flow.through)
            .min(self.least_of_fan_in(node, false))
            .min(self.least_of_fan_in(node, true))
    }

    /// Returns the least label to which an arc leads from before a gate at one fan-in.
    fn least_of_fan_in(&self, node: &Before, second: bool) -> u32 {
        let labels = labels_at(self.labels.as_slice(), node.fan_ins.at(second));
        let has_room = node.flow.has_room(second);
        let came = node.flow.up(second);
        near(labels.before, node.below, has_room).min(near(labels.after, node.below, came))
    }

    /// Returns the new label of the node before a gate, if nothing comes to it in this pulse.
    pub fn raised_before(&self, node: &Before, part: &mut Part) -> u32 {
        let labels = self.labels.as_slice();
        part.count(4);
        let mut least = self.least_near(node);
        let readers = self.readers.at(node.place);
        for k in 0..readers.len() {
            part.count(1);
            let (reader, below) = (readers[k], node.below);
            if self.came_from(reader, node.place).1 > 0 {
                least = least.min(near(label_before(labels, reader), below, true));
            }
        }
        least.saturating_add(1)
    }
}

/// Returns the new label of a node before a gate, once units have come to it. `label` is that of
/// before, `raised` the one without these units.
pub(crate) fn raised_with_arrivals(label: u32, raised: u32) -> u32 {
    raised.min(label.saturating_add(2))
}
