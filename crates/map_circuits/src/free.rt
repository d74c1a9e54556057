//! Free latches. The free latch of the first circuit that one of the second is can't be asked of
//! values, since both may start as anything. It is the one that its output reads.
ghost use Rattle.std.specs.Prelude.{◌≡◌, ◌↔◌, All, IfOk, IsTrue, length};
ghost use Rattle.std.specs.List.Sorted.{IsStrictlyIncreasing};
ghost use Rattle.aig_graph.specs.Graph.{is_free};
ghost use Rattle.state_maps.specs.MapCircuits.{FreeStay, IsFreeInput, free_outputs};

use aig_graph::{Aig, Circuit, ClosedSet, Latch, Lit, NoMemory, Reset};
use std::alloc::Global;

/// Returns true if the latch is free.
fn is_free(latch: &Latch) -> bool
    ensures { result ≡ is_free latch.now }
{
    latch.reset == Reset::Free
}

/// Returns the numbers of the outputs that stand for free latches.
fn free_outputs(alloc: Global, latches: &[Latch], outputs: &[Lit]) -> Result<Vec<u32>, NoMemory>
    requires { length outputs.now ≡ length latches.now }
    ensures { IfOk result (λ codes. codes.items ≡ free_outputs latches.now outputs.now) }
{
    let mut codes = Vec::new(alloc);
    for (place, latch) in latches.iter().enumerate() {
        if is_free(latch) {
            codes.push(outputs[place].code())?;
        }
    }
    Ok(codes)
}

/// Returns true if the literal with this number is the input that stands for a free latch.
fn is_free_input(first: &Aig, code: u32) -> bool
    ensures { IsTrue result ↔ IsFreeInput first.now code }
{
    if code < 2 || code % 2 == 1 {
        return false;
    }
    match first.latch(first.inputs() + code / 2) {
        Some(latch) => is_free(&latch),
        None => false,
    }
}

/// Returns true if each of the literals with these numbers is an input that stands for a free
/// latch.
fn are_free_inputs(first: &Aig, codes: &[u32]) -> bool
    ensures { IsTrue result ↔ All (IsFreeInput first.now) codes.now }
{
    codes.iter().all(|code| is_free_input(first, *code))
}

/// Returns true if the numbers rise.
fn do_rise(codes: Vec<u32>) -> bool
    ensures { IsTrue result ↔ IsStrictlyIncreasing codes.items }
{
    ClosedSet::new(codes).is_some()
}

/// Returns true if each free latch of the second circuit is one of the first, in their order.
///
/// # Errors
///
/// `NoMemory` if memory is refused.
pub fn free_stay(
    alloc: Global,
    first: &Circuit,
    second: &Circuit,
    map: &Circuit,
) -> Result<bool, NoMemory>
    requires { length map.now.props.outputs ≡ length second.now.aig.latches }
    ensures { IfOk result (λ stay. IsTrue stay ↔ FreeStay first.now second.now map.now) }
{
    let codes = free_outputs(
        alloc,
        second.aig().latches(),
        map.props().outputs.as_slice(),
    )?;
    let are = are_free_inputs(first.aig(), codes.as_slice());
    let rising = do_rise(codes);
    Ok(are & rising)
}
