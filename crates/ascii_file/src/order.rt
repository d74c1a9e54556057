//! Topological sorting (Kahn, 1962), with a heap of file places: of the gates that may follow, the
//! first one of the file does. A file that is in order already is recognised in one pass, and needs
//! no heap.
ghost use Rattle.std.specs.Prelude.{◌≡◌, ◌<◌, ◌↔◌, ◌^◌, [], length, IfOk, OnOk, IsTrue, MatchOption};
ghost use Rattle.std.specs.BinaryHeap.{heap_items};
ghost use Rattle.std.specs.List.{range_with_len};
ghost use Rattle.std.specs.Option.{option_map};
ghost use Rattle.ascii_file.specs.order.Cycles.{HasCycle};
ghost use Rattle.ascii_file.specs.order.Order.{AreReadsInFile, IsInOrder, IsOrder, may_follow, ordered};
ghost use Rattle.ascii_file.specs.order.Readers.{AreReaderTables, read_by};
ghost use Rattle.ascii_file.specs.order.Ready.{Gains, IsReadyHeap, is_released};

mod laws;
mod readers;
mod reads;

use crate::order::readers::Readers;
use crate::order::reads::Side;
use aig_graph::NoMemory;
pub use laws::{cycle_laws, in_order_law, order_laws};
pub use reads::Reads;
use std::alloc::Global;
use std::cmp::Reverse;
use std::collections::BinaryHeap;

/// Returns true if each gate reads only gates before it.
fn is_in_order(gates: &[Reads]) -> bool
    ensures { IsTrue result ↔ IsInOrder gates.now }
{
    for (place, reads) in gates.iter().enumerate() {
        if !reads.are_before(place) {
            return false;
        }
    }
    true
}

/// Returns the places of the file, in order.
fn file_order(alloc: Global, gates: usize) -> Result<Vec<u32>, NoMemory>
    requires { gates < 2 ^ 32 }
    ensures { IfOk result (λ order. order.items ≡ range_with_len 0 gates) }
{
    let mut order = Vec::with_capacity(alloc, gates)?;
    for place in 0..gates {
        order.push(place as u32)?;
    }
    Ok(order)
}

/// Returns the gates that read no gate.
fn ready_at_start(alloc: Global, gates: &[Reads]) -> Result<BinaryHeap<Reverse<u32>>, NoMemory>
    requires { length gates.now < 2 ^ 32 }
    ensures heap { IfOk result (λ ready. IsReadyHeap (heap_items ready)) }
    ensures each { IfOk result (λ ready. Gains (may_follow gates.now []) [] (heap_items ready)) }
{
    let mut ready = BinaryHeap::new(alloc);
    for (place, reads) in gates.iter().enumerate() {
        if reads.is_free() {
            ready.push(Reverse(place as u32))?;
        }
    }
    Ok(ready)
}

/// Puts the gates that read this place by this fan-in into the heap, if all their fan-ins are
/// marked.
fn release(
    gates: &[Reads],
    side: Side,
    readers: &Readers,
    marks: &[bool],
    place: u32,
    ready: &mut BinaryHeap<Reverse<u32>>,
) -> Result<(), NoMemory>
    requires in_file { AreReadsInFile gates.now }
    requires tables { AreReaderTables (read_by side gates.now) (length gates.now)
        (length gates.now) readers.now.last.items readers.now.before.items }
    requires marks { length marks.now ≡ length gates.now }
    requires place { place < length gates.now }
    requires heap { IsReadyHeap (heap_items ready.old) }
    ensures heap { OnOk result (IsReadyHeap (heap_items ready.new)) }
    ensures each { OnOk result (Gains (is_released gates.now side marks.now place)
        (heap_items ready.old) (heap_items ready.new)) }
{
    let mut link = readers.last[place as usize];
    while link > 0 {
        let reader = link - 1;
        if gates[reader as usize].are_marked(marks) {
            ready.push(Reverse(reader))?;
        }
        link = readers.before[reader as usize];
    }
    Ok(())
}

/// Returns the order, by a heap of the gates that may follow. Gives `None` for a cycle.
fn sorted(alloc: Global, gates: &[Reads]) -> Result<Option<Vec<u32>>, NoMemory>
    requires few { length gates.now < 2 ^ 29 }
    requires in_file { AreReadsInFile gates.now }
    ensures { IfOk result (λ order. option_map (λ places. places.items) order ≡ ordered gates.now) }
{
    let first = Readers::new(alloc, gates, Side::First)?;
    let second = Readers::new(alloc, gates, Side::Second)?;
    let mut marks = vec![in alloc; false; gates.len()]?;
    let mut ready = ready_at_start(alloc, gates)?;
    let mut order = Vec::with_capacity(alloc, gates.len())?;
    let marks = marks.as_mut_slice();
    for place in 0..gates.len() {
        let Some(Reverse(gate)) = ready.pop() else {
            return Ok(None);
        };
        order.push(gate)?;
        marks[gate as usize] = true;
        release(gates, Side::First, &first, marks, gate, &mut ready)?;
        release(gates, Side::Second, &second, marks, gate, &mut ready)?;
    }
    Ok(Some(order))
}

/// Returns true if each gate reads only gates of the file.
pub fn are_in_file(gates: &[Reads]) -> bool
    ensures { IsTrue result ↔ AreReadsInFile gates.now }
{
    gates.iter().all(|reads| reads.are_before(gates.len()))
}

/// Returns the places in the file of its gates, in the order that they take in the circuit. At each
/// place of the circuit stands the first gate of the file that isn't placed below and whose gate
/// fan-ins all are. Gives `None` if and only if gates read one another in a cycle.
///
/// Takes linear time if the gates are in order in the file, else n log n for n gates.
///
/// # Errors
///
/// `NoMemory` if memory is refused.
pub fn gate_order(alloc: Global, gates: &[Reads]) -> Result<Option<Vec<u32>>, NoMemory>
    requires few { length gates.now < 2 ^ 29 }
    requires in_file { AreReadsInFile gates.now }
    ensures computed { IfOk result (λ order. option_map (λ places. places.items) order
        ≡ ordered gates.now) }
    ensures rule { IfOk result (λ order. MatchOption order (HasCycle gates.now)
        (λ places. IsOrder gates.now places.items)) }
{
    if is_in_order(gates) {
        Ok(Some(file_order(alloc, gates.len())?))
    } else {
        sorted(alloc, gates)
    }
}
