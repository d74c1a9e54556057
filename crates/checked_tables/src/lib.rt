//! Tables of hints, read and written behind a look at their length. Nothing stands past the end: a
//! read there gives a stand-in, and a write does nothing.
//!
//! Memory that was refused leaves an empty table, and what is made of it is thrown away in the end.
//! With ample memory [`put_if_there`] finds its entry. No clause says so, so `tests/outside/within`
//! has a program run that stops at one that doesn't. The writes of hints have this one home for it.
#![tactic(auto)]

/// Returns the entry at `place`, or `missing` past the end.
pub fn entry_or<T: Copy>(table: &[T], place: usize, missing: T) -> T {
    if place < table.len() {
        table[place]
    } else {
        missing
    }
}

/// Puts an entry at `place`, which the table has unless memory was refused.
pub fn put_if_there<T: Copy>(table: &mut [T], place: usize, entry: T) {
    if place < table.len() {
        table[place] = entry;
    }
}

/// Puts an entry at `place`, if the table covers it. A table by variable from a first one on covers
/// none before that.
pub fn put_if_covered<T: Copy>(table: &mut [T], place: usize, entry: T) {
    if place < table.len() {
        put_if_there(table, place, entry);
    }
}
