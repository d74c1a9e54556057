//! Cleaning, pass after pass. A pass adds nothing, and what it replaces is read no more and goes.
//! So a pass that leaves as many latches and gates as there were has changed nothing, and is the
//! last. After a pass all gates differ and all are reached. The next pass then changes something
//! only if a latch isn't its own substitute; otherwise it isn't made. The places that a caller is
//! told, of the free latches and of the gates, are composed over all passes.
ghost use Rattle.std.specs.Prelude.{◌≡◌, ◌<◌, ◌≤◌, ◌⊎◌, All, IfOk, false, length, map, slice_index, true};
ghost use Rattle.std.specs.List.Sorted.{IsStrictlyIncreasing};
ghost use Rattle.aig_graph.specs.Graph.{free_latches, latches_and_gates};
ghost use Rattle.aig_graph.specs.Streams.{SameStreams};
ghost use Rattle.aig_graph.specs.Laws.{composed};
ghost use Rattle.cleaned_circuits.specs.Cleaned.{Cleans};
ghost use Rattle.cleaned_circuits.specs.Held.{HeldAfter};
ghost use Rattle.clean.specs.Passes.{IsPassAfter};
ghost use Rattle.clean.specs.Settled.{AreOwnLatches};

use crate::held::Held;
use crate::latches::are_own_latches;
use crate::pass::{Pass, run_pass, run_pass_over};
use crate::tables::PassTables;
use aig_graph::{Circuit, Keep, NoMemory, Sequence};
use std::alloc::Global;

/// A cleaned circuit.
#[derive(Drop)]
pub struct Cleaned {
    /// What is left of the circuit.
    pub circuit: Circuit,
    /// The latches that were held, at their positions in what is left.
    pub keep: Keep,
    /// Of each free latch that stays, its place, from 0, among the free latches of the circuit that
    /// was cleaned.
    pub kept_free: Sequence<u32>,
    /// By variable from the first latch on, true if a latch or gate of the circuit that was cleaned
    /// stays. Empty if all do. A hint: no clause speaks of it.
    pub kept: Vec<bool>,
}

/// Returns the entries of a first list at the places that a second list names. The lists may have
/// the places of the free latches that stay, from one circuit to the next and from that one to a
/// third. The result then has those from the first to the third.
///
/// # Errors
///
/// `NoMemory` if the list is refused.
pub fn composed(alloc: Global, first: &[u32], second: &[u32]) -> Result<Vec<u32>, NoMemory>
    requires { All (λ place. place < length first.now) second.now }
    ensures { IfOk result (λ places. places.items ≡ composed first.now second.now) }
{
    let mut places = Vec::with_capacity(alloc, second.len())?;
    for place in second {
        places.push(first[*place as usize])?;
    }
    Ok(places)
}

/// Returns the marks of the latches and gates that stay over two passes. The marks of the second
/// pass are one for each variable that the first keeps. A hint: no clause speaks of it.
///
/// # Errors
///
/// `NoMemory` if the list is refused.
pub fn kept_twice(alloc: Global, first: &[bool], second: &[bool]) -> Result<Vec<bool>, NoMemory> {
    let mut next = 0usize;
    let mut kept = Vec::with_capacity(alloc, first.len())?;
    for place in 0..first.len() {
        let stays = first[place];
        kept.push(stays & (next < second.len() && second[next]))?;
        next = next.saturating_add(usize::from(stays));
    }
    Ok(kept)
}

/// Runs the pass after a pass, in the table of gates that it left. The places of the last pass may
/// be counted among the free latches of an earlier circuit; those of this one are then too.
fn next_pass(alloc: Global, last: Pass, tables: &mut PassTables) -> Result<Pass, NoMemory>
    requires in_range { All (λ j. j < length last.circuit.aig.latches) last.held.items }
    requires places { length last.kept_free.items ≡ free_latches last.circuit.aig }
    ensures { IfOk result (λ next. IsPassAfter last.held.items last.circuit next.circuit
        last.kept_free.items next.kept_free.items next.held.items) }
{
    let Pass {
        circuit,
        kept_free,
        kept,
        held,
    } = last;
    let mut next = run_pass_over(alloc, circuit, held.as_slice(), tables)?;
    next.kept_free = composed(alloc, kept_free.as_slice(), next.kept_free.as_slice())?;
    next.kept = kept_twice(alloc, kept.as_slice(), next.kept.as_slice())?;
    Ok(next)
}

/// Returns true if each latch of a circuit is its own substitute.
fn is_settled(alloc: Global, circuit: &Circuit, held: &[u32]) -> Result<bool, NoMemory>
    requires { All (λ j. j < length circuit.now.aig.latches) held.now }
    ensures { IfOk result (λ yes. yes ≡ true → AreOwnLatches circuit.now.aig held.now) }
{
    let aig = circuit.aig();
    let held = Held::new(alloc, held, aig.latches().len())?;
    are_own_latches(alloc, aig, &held)
}

/// Returns true if another pass is to be made of what the last one left, with the latches at these
/// positions held. `before` is the number of latches and gates before the last pass. A needless
/// pass changes nothing, so if memory for a look at the latches is refused, it is made.
pub fn has_more(alloc: Global, circuit: &Circuit, held: &[u32], before: usize) -> bool
    requires { All (λ j. j < length circuit.now.aig.latches) held.now }
    ensures fewer { result ≡ true → latches_and_gates circuit.now.aig < before }
    ensures done { result ≡ false → (before ≤ latches_and_gates circuit.now.aig)
        ⊎ AreOwnLatches circuit.now.aig held.now }
{
    if circuit.aig().latches_and_gates() >= before {
        return false;
    }
    match is_settled(alloc, circuit, held) {
        Ok(settled) => !settled,
        Err(NoMemory) => true,
    }
}

/// Returns [`has_more`] of a pass.
fn goes_on(alloc: Global, last: &Pass, before: usize) -> bool
    requires { All (λ j. j < length last.now.circuit.aig.latches) last.now.held.items }
    ensures fewer { result ≡ true → latches_and_gates last.now.circuit.aig < before }
    ensures done { result ≡ false → (before ≤ latches_and_gates last.now.circuit.aig)
        ⊎ AreOwnLatches last.now.circuit.aig last.now.held.items }
{
    has_more(alloc, &last.circuit, last.held.as_slice(), before)
}

/// Returns what the last pass leaves.
fn cleaned_by(last: Pass) -> Cleaned
    requires { IsStrictlyIncreasing last.held.items }
    ensures circuit { result.circuit ≡ last.circuit }
    ensures keep { result.keep ≡ last.held.items }
    ensures kept_free { result.kept_free ≡ last.kept_free.items }
{
    let Pass {
        circuit,
        kept_free,
        kept,
        held,
    } = last;
    Cleaned {
        circuit,
        keep: Keep::new(held),
        kept_free: Sequence::from_vec(kept_free),
        kept,
    }
}

/// Cleans a circuit of redundant latches and gates, pass after pass until one would change nothing.
///
/// In a pass a latch that never leaves its reset becomes that constant. A latch with the next
/// literal and the known reset of an earlier one becomes that one. Gates come down to constants, to
/// one of their literals, or to an earlier gate of their literals. What no property and no held
/// latch depends on goes, and numbers close up. Inputs and properties always stay, and so do held
/// latches, whose new positions it returns. Free latches are never replaced. A latch that stays
/// keeps its name.
///
/// A pass is linear in the latches, gates, properties and names, but for the hash table of gates. A
/// circuit of inputs alone takes kilobytes, however many they are.
pub fn clean(alloc: Global, circuit: &Circuit, keep: &Keep) -> Result<Cleaned, NoMemory>
    requires in_range { All (λ j. j < length circuit.now.aig.latches) keep.now }
    ensures cleaned { IfOk result (λ c. Cleans c.circuit keep.now circuit.now c.kept_free) }
    ensures streams { IfOk result (λ c. SameStreams circuit.now c.circuit c.kept_free) }
    ensures held { IfOk result (λ c. HeldAfter c.circuit c.keep keep.now circuit.now) }
    ensures in_range { IfOk result (λ c. All (λ j. j < length c.circuit.aig.latches) c.keep) }
{
    let mut before = circuit.aig().latches_and_gates();
    let mut tables = PassTables::none(alloc);
    let mut last = run_pass(alloc, circuit, keep.positions(), &mut tables)?;
    while goes_on(alloc, &last, before) {
        before = last.circuit.aig().latches_and_gates();
        last = next_pass(alloc, last, &mut tables)?;
    }
    Ok(cleaned_by(last))
}

/// Cleans a circuit as [`clean`] does, in its own table of gates. So no copy of them is made.
pub fn clean_over(alloc: Global, circuit: Circuit, keep: &Keep) -> Result<Cleaned, NoMemory>
    requires in_range { All (λ j. j < length circuit.aig.latches) keep.now }
    ensures cleaned { IfOk result (λ c. Cleans c.circuit keep.now circuit c.kept_free) }
    ensures streams { IfOk result (λ c. SameStreams circuit c.circuit c.kept_free) }
    ensures held { IfOk result (λ c. HeldAfter c.circuit c.keep keep.now circuit) }
    ensures in_range { IfOk result (λ c. All (λ j. j < length c.circuit.aig.latches) c.keep) }
{
    circuit.known();
    let mut before = circuit.aig().latches_and_gates();
    let mut tables = PassTables::none(alloc);
    let mut last = run_pass_over(alloc, circuit, keep.positions(), &mut tables)?;
    while goes_on(alloc, &last, before) {
        before = last.circuit.aig().latches_and_gates();
        last = next_pass(alloc, last, &mut tables)?;
    }
    Ok(cleaned_by(last))
}
