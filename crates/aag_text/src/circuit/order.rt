//! The order of the gates.
ghost use Rattle.std.specs.Prelude.{◌≡◌, ◌<◌, ◌≤◌, ◌^◌, length, map, All, IfOk};
ghost use Rattle.ascii_file.specs.order.Order.{ordered, IsOrder, AreReadsInFile};
ghost use Rattle.file_words.specs.declared.fault.ReadError.TheVariants as faults;
ghost use Rattle.file_words.specs.Answering.{Gives};
ghost use Rattle.aag_text.specs.Arranging as arranging;
ghost use Rattle.aag_text.specs.Arranging.{gate_read, order_or_cycle, AreRanks, AreDistinct, HasFanInsBelow};

use aig_graph::{Gate, Lit, NoMemory};
use ascii_file::{Reads, gate_order};
use file_words::ReadError;
use std::alloc::Global;

/// Returns the place in the file of the gate that the literal reads.
fn gate_place(first: u32, lit: Lit) -> Option<u32>
    ensures { result ≡ gate_read first lit }
{
    if lit.var() >= first {
        Some(lit.var() - first)
    } else {
        None
    }
}

/// Returns the gates that each gate reads. Variables of gates begin with `first`.
fn reads_of(alloc: Global, first: u32, gates: &[Gate]) -> Result<Vec<Reads>, NoMemory>
    ensures { IfOk result (λ reads. reads.items ≡ map (arranging.reads_of_gate first) gates.now) }
{
    let mut reads = Vec::with_capacity(alloc, gates.len())?;
    for gate in gates {
        reads.push_reserved(Reads {
            first: gate_place(first, gate.rhs0),
            second: gate_place(first, gate.rhs1),
        });
    }
    Ok(reads)
}

/// Returns the file places of the gates in the order that they take in the circuit, or `Cycle`.
pub(crate) fn order(alloc: Global, first: u32, gates: &[Gate]) -> Result<Vec<u32>, ReadError>
    requires few { length gates.now < 2 ^ 28 }
    requires in_file { AreReadsInFile (map (arranging.reads_of_gate first) gates.now) }
    ensures { Gives faults.NoMemory (λ order. order.items) result (order_or_cycle
        (ordered (map (arranging.reads_of_gate first) gates.now))) }
{
    let Ok(reads) = reads_of(alloc, first, gates) else {
        return Err(ReadError::NoMemory);
    };
    match gate_order(alloc, reads.as_slice()) {
        Ok(Some(order)) => Ok(order),
        Ok(None) => Err(ReadError::Cycle),
        Err(_) => Err(ReadError::NoMemory),
    }
}

/// Returns the place of each number in the order.
pub(crate) fn ranks(alloc: Global, order: &[u32]) -> Result<Vec<u32>, NoMemory>
    requires few { length order.now < 2 ^ 28 }
    requires distinct { AreDistinct order.now }
    ensures { IfOk result (λ ranks. AreRanks order.now ranks.items) }
{
    let mut ranks = vec![in alloc; 0; order.len()]?;
    for (rank, place) in order.iter().enumerate() {
        ranks[*place as usize] = rank as u32;
    }
    Ok(ranks)
}
