//! Distances in the first worked network, at the start of the flow.
use frame_net::Net;
use pulse_parts::{exact_labels, start_parts};
use std::alloc::{AllocError, Global};

/// Returns true if these are the distances at the start, when the source's arcs are full.
fn starts_with(alloc: Global, net: &Net, distances: &[u32]) -> Result<bool, AllocError> {
    let nodes = net.nodes();
    net.known_capacities();
    let mut labels = vec![in alloc; 0u32; nodes as usize]?;
    let mut queue = vec![in alloc; 0u32; nodes as usize]?;
    let parts = start_parts(alloc, net, 2)?;
    exact_labels(
        net,
        parts.as_slice(),
        labels.as_mut_slice(),
        queue.as_mut_slice(),
    );
    drop(parts);
    Ok(labels.as_slice() == distances)
}

/// Returns true if they are those that were worked by hand.
pub(crate) fn start_as_worked(alloc: Global, net: &Net) -> bool {
    starts_with(alloc, net, &[6, 0, 3, 3, 2, 1]).unwrap_or(false)
}
