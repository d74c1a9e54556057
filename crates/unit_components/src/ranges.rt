//! Ranges of places or gates that workers have.

/// Returns the beginning of worker `worker`'s range if `workers` workers share `many` items. The
/// ranges of the workers before it end there.
pub(crate) fn border(worker: usize, workers: usize, many: usize) -> usize {
    let size = (many / workers.max(1)).saturating_add(1);
    worker.saturating_mul(size).min(many)
}

/// Returns the entries of `table` from `from` up to `to`, or none if there are no such entries.
pub(crate) fn entries<T>(table: &[T], from: usize, to: usize) -> &[T] {
    if from <= to && to <= table.len() {
        &table[from..to]
    } else {
        &[]
    }
}

/// Returns the number of places before `end`, of places that rise.
pub(crate) fn count_before(places: &[u32], end: usize) -> usize {
    let (mut from, mut to) = (0usize, places.len());
    for _ in 0..u32::MAX {
        if from >= to {
            return from;
        }
        let middle = from.wrapping_add(to.wrapping_sub(from) / 2);
        if middle < places.len() && (places[middle] as usize) < end {
            from = middle.wrapping_add(1);
        } else {
            to = middle;
        }
    }
    from
}
