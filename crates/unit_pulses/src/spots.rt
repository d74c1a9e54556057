//! The units at each place, and how far the sink is. Nothing stands past the end of a table.

/// The label of a node from which no unit can come to the sink.
pub(crate) const FAR: u32 = u32::MAX;

/// The number of arcs of a way to the sink, from the node before a place and that after it.
#[derive(Clone, Copy)]
pub(crate) struct Labels {
    pub before: u32,
    pub after: u32,
}

impl Labels {
    pub const NONE: Labels = Labels {
        before: FAR,
        after: FAR,
    };
}

/// The number of units before a place, and if a unit waits after it.
#[derive(Clone, Copy)]
pub(crate) struct Spot {
    pub excess: u32,
    /// True if it is a known latch or a passable gate, from before which units could come to the
    /// sink, as far as is known. If they can't, they can't either after more pushes.
    pub reaches: bool,
    /// True if it is a known latch or a passable gate, and an arc leads from after it to the sink.
    pub is_observed: bool,
    pub waits: bool,
    /// True if the node before it had no label as it was last seen.
    pub is_open: bool,
}

impl Spot {
    pub const NONE: Spot = Spot {
        excess: 0,
        reaches: false,
        is_observed: false,
        waits: false,
        is_open: false,
    };
}

pub(crate) fn spot_at(spots: &[Spot], place: u32) -> Spot {
    let place = place as usize;
    if place < spots.len() {
        spots[place]
    } else {
        Spot::NONE
    }
}

pub(crate) fn labels_at(labels: &[Labels], place: u32) -> Labels {
    let place = place as usize;
    if place < labels.len() {
        labels[place]
    } else {
        Labels::NONE
    }
}

pub(crate) fn label_before(labels: &[Labels], place: u32) -> u32 {
    labels_at(labels, place).before
}

pub(crate) fn label_after(labels: &[Labels], place: u32) -> u32 {
    labels_at(labels, place).after
}
