//! A gate of a map waits to be written, and nothing reads it until then. So it is kept as its bytes
//! in the file, some three in place of the eight of a gate. Less memory is touched, which costs
//! more than the bytes do. The bytes of many gates are gathered in a small chunk, which stays in
//! the cache, before they are appended.
ghost use Rattle.std.specs.Prelude.{◌≡◌, ◌+◌, ◌≤◌, ◌<◌, ◌*◌, ◌++◌, OnOk, is_ok, length, take, vec_capacity, if◌then◌else◌};
ghost use Rattle.aig_graph.specs.Graph.{IsGateAt};
ghost use Rattle.aig_graph.specs.declared.literal.TheConstants.{MAX_VARIABLES};
ghost use Rattle.aig_binary.specs.Text.{gate_deltas};
ghost use Rattle.binary_file.specs.Deltas.{delta_of};

use aig_graph::Gate;
use std::alloc::{AllocError, Global};

/// The most bytes of a gate: of two deltas, five each.
pub(crate) const GATE_BYTES: usize = 10;

/// For how many sets as large as the first there is room at first.
const SETS: usize = 8;

/// The size in bytes of a block that is asked for and given back. At first there is room for two
/// blocks at least.
const BLOCK: usize = 4 * 1024 * 1024;

/// Puts the delta of a number at index `at`, in as few bytes as can be. Returns the index of its
/// end.
#[inline(always)]
fn put_delta(bytes: &mut [u8], at: usize, number: u32) -> usize
    requires { at + 5 ≤ length bytes.old }
    ensures delta { take result bytes.new ≡ take at bytes.old ++ delta_of number }
    ensures long { length bytes.new ≡ length bytes.old }
    ensures few { result ≤ at + 5 }
{
    let mut end = at;
    let mut rest = number;
    while rest >= 128 {
        bytes[end] = (rest % 128 + 128) as u8;
        rest /= 128;
        end += 1;
    }
    bytes[end] = rest as u8;
    end + 1
}

/// Puts the deltas of the gate of a variable at index `at`. Returns the index of their end.
#[inline(always)]
#[tactic(auto, unfolding(aig_binary::specs::Text::gate_deltas))]
pub(crate) fn put_gate(bytes: &mut [u8], at: usize, var: u32, gate: Gate) -> usize
    requires small { var < MAX_VARIABLES }
    requires gate { IsGateAt var gate }
    requires room { at + GATE_BYTES ≤ length bytes.old }
    ensures deltas { take result bytes.new ≡ take at bytes.old ++ gate_deltas var gate }
    ensures long { length bytes.new ≡ length bytes.old }
    ensures few { result ≤ at + GATE_BYTES }
{
    let rhs0 = gate.rhs0.code();
    let rhs1 = gate.rhs1.code();
    let middle = put_delta(bytes, at, 2 * var - rhs0);
    put_delta(bytes, middle, rhs0 - rhs1)
}

/// Appends the deltas of the gate of a variable.
pub(crate) fn append_gate(deltas: &mut Vec<u8>, var: u32, gate: Gate) -> Result<(), AllocError>
    requires small { var < MAX_VARIABLES }
    requires gate { IsGateAt var gate }
    ensures { deltas.new.items
        ≡ (if is_ok result then deltas.old.items ++ gate_deltas var gate else deltas.old.items) }
{
    let mut bytes = [0; GATE_BYTES];
    let end = put_gate(&mut bytes, 0, var, gate);
    deltas.extend_from_slice(&bytes[..end])
}

/// Asks for a block and gives it back. The C library then keeps up to twice as much at the end of
/// the heap. `M_TRIM_THRESHOLD` of mallopt(3) follows the largest block that had a mapping of its
/// own and was given back. Otherwise the end of the heap goes to the kernel after many a frame. The
/// next frame then has the kernel find and clear those pages anew.
pub(crate) fn keep_heap(alloc: Global) {
    let mut block: Vec<u8> = Vec::new(alloc);
    let _granted = block.reserve(BLOCK);
}

/// Makes room for the bytes of `gates` gates. The first time it makes room for `SETS` sets as
/// large, if memory allows, since such sets are likely to follow. It is at least two blocks: such
/// bytes have a mapping of their own, and never move. Room that isn't used costs nothing.
pub(crate) fn reserve_gates(deltas: &mut Vec<u8>, gates: usize) -> Result<(), AllocError>
    requires { gates < MAX_VARIABLES }
    ensures items { deltas.new.items ≡ deltas.old.items }
    ensures room { OnOk result (length deltas.old.items + GATE_BYTES * gates
        ≤ vec_capacity deltas.new) }
{
    let bytes = GATE_BYTES * gates;
    if deltas.capacity() == 0 && deltas.reserve((SETS * bytes).max(2 * BLOCK)).is_ok() {
        return Ok(());
    }
    deltas.reserve(bytes)
}

/// Appends bytes for which there is room.
pub(crate) fn append_reserved(deltas: &mut Vec<u8>, bytes: &[u8])
    requires { length deltas.old.items + length bytes.now ≤ vec_capacity deltas.old }
    ensures items { deltas.new.items ≡ deltas.old.items ++ bytes.now }
    ensures capacity { vec_capacity deltas.old ≤ vec_capacity deltas.new }
{
    let _appended = deltas.extend_from_slice(bytes);
}

/// Appends the first bytes of the chunk if those of a gate may find no room beside them. There is
/// room for them in `deltas`. Returns the number of bytes that still wait in the chunk.
#[inline(always)]
pub(crate) fn leave_room(deltas: &mut Vec<u8>, chunk: &[u8], waiting: usize) -> usize
    requires long { GATE_BYTES ≤ length chunk.now }
    requires within { waiting ≤ length chunk.now }
    requires room { length deltas.old.items + waiting ≤ vec_capacity deltas.old }
    ensures bytes { deltas.new.items ++ take result chunk.now
        ≡ deltas.old.items ++ take waiting chunk.now }
    ensures many { length deltas.new.items + result ≡ length deltas.old.items + waiting }
    ensures capacity { vec_capacity deltas.old ≤ vec_capacity deltas.new }
    ensures room { result + GATE_BYTES ≤ length chunk.now }
{
    if waiting > chunk.len() - GATE_BYTES {
        append_reserved(deltas, &chunk[..waiting]);
        0
    } else {
        waiting
    }
}
