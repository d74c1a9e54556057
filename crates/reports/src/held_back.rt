//! The reasons why the latches of a circuit don't move.
ghost use Rattle.std.specs.Prelude.{◌≡◌, IfOk, Some};
ghost use Rattle.aig_graph.specs.Counting.{count_below};
ghost use Rattle.aig_graph.specs.Tables.{table};
ghost use Rattle.aig_graph.specs.Graph.{first_latch, first_gate, latches_and_gates};
ghost use Rattle.aig_graph.specs.Border.{is_read_outside};
ghost use Rattle.frame_net.specs.Passable.{IsPassSet, is_passable};
ghost use Rattle.path_levels.specs.Bounded.{bounded};
ghost use Rattle.reports.specs.HeldBack.{held_back, held_back_within, is_known_held, is_marked_latch};

use aig_graph::{Aig, Circuit, Keep, NoMemory, mark_at, mark_read};
use frame_net::{PassSet, passable};
use path_levels::bounded;
use std::alloc::Global;

/// Why latches of a circuit can't move. A known latch that is in none of these counts is read by
/// passable gates alone.
#[derive(Clone, Copy)]
pub struct HeldBack {
    /// The latches whose reset is free.
    pub free: u32,
    /// The latches with a known reset that are held by name.
    pub held: u32,
    /// The other latches with a known reset that a gate that isn't passable, a next literal or a
    /// property reads.
    pub read_elsewhere: u32,
    /// Under a bound on levels, the latches that passable gates alone read, one of which is past
    /// the bound; none without a bound.
    pub too_long: Option<u32>,
    /// The gates that latches may move over.
    pub passable: u32,
}

/// Returns true if the variable is a held latch with a known reset.
fn is_known_held(aig: &Aig, keep: &Keep, var: u32) -> bool
    ensures { result ≡ is_known_held aig.now keep.now var }
{
    keep.is_held(aig, var) && aig.is_known_latch(var)
}

/// Returns the number of held latches with a known reset.
fn count_held(aig: &Aig, keep: &Keep) -> u32
    ensures { result ≡ count_below (is_known_held aig.now keep.now) (first_gate aig.now) }
{
    let mut total = 0;
    for var in aig.first_latch()..aig.first_gate() {
        if is_known_held(aig, keep, var) {
            total += 1;
        }
    }
    total
}

/// Marks what gates that aren't passable, next literals and properties read.
fn marks_elsewhere(
    alloc: Global,
    circuit: &Circuit,
    keep: &Keep,
    pass: &PassSet,
) -> Result<Vec<bool>, NoMemory>
    requires { IsPassSet circuit.now.aig keep.now pass.now }
    ensures { IfOk result (λ marks. marks.items ≡ table (first_latch circuit.now.aig)
        (latches_and_gates circuit.now.aig)
        (is_read_outside circuit.now.aig circuit.now.props
        (is_passable circuit.now.aig keep.now))) }
{
    let aig = circuit.aig();
    let mut marks = vec![in alloc; false; aig.latches_and_gates()]?;
    mark_read(marks.as_mut_slice(), aig, circuit.props(), pass.marks());
    Ok(marks)
}

/// Returns true if the variable is a latch that may move and has a mark.
fn is_marked_latch(aig: &Aig, keep: &Keep, marks: &[bool], var: u32) -> bool
    ensures { result ≡ is_marked_latch aig.now keep.now marks.now var }
{
    keep.may_move(aig, var) && mark_at(marks, aig.first_latch(), var)
}

/// Returns the number of latches that may move and have a mark.
fn count_marked(aig: &Aig, keep: &Keep, marks: &[bool]) -> u32
    ensures { result ≡ count_below (is_marked_latch aig.now keep.now marks.now)
        (first_gate aig.now) }
{
    let mut total = 0;
    for var in aig.first_latch()..aig.first_gate() {
        if is_marked_latch(aig, keep, marks, var) {
            total += 1;
        }
    }
    total
}

impl HeldBack {
    /// Counts why latches of a circuit don't move, with these latches held. Linear in the circuit,
    /// but for a search among the held latches.
    ///
    /// # Errors
    ///
    /// Memory is refused.
    pub fn of(alloc: Global, circuit: &Circuit, keep: &Keep) -> Result<HeldBack, NoMemory>
        ensures { IfOk result (λ found. found ≡ held_back circuit.now keep.now) }
    {
        let aig = circuit.aig();
        let pass = passable(alloc, aig, keep)?;
        let marks = marks_elsewhere(alloc, circuit, keep, &pass)?;
        Ok(HeldBack {
            free: aig.free_latches(),
            held: count_held(aig, keep),
            read_elsewhere: count_marked(aig, keep, marks.as_slice()),
            too_long: None,
            passable: pass.count(),
        })
    }

    /// Counts as [`HeldBack::of`] does, under a bound on levels if there is one.
    ///
    /// # Errors
    ///
    /// Memory is refused.
    pub fn within(
        alloc: Global,
        circuit: &Circuit,
        keep: &Keep,
        bound: Option<u32>,
    ) -> Result<HeldBack, NoMemory>
        ensures { IfOk result (λ found. found
            ≡ held_back_within bound circuit.now keep.now) }
    {
        let found = HeldBack::of(alloc, circuit, keep)?;
        match bound {
            Some(most) => under_bound(alloc, circuit, keep, found, most),
            None => Ok(found),
        }
    }
}

/// Counts the latches that something reads that isn't a gate passable within the bound.
fn read_within(alloc: Global, circuit: &Circuit, keep: &Keep, bound: u32) -> Result<u32, NoMemory>
    ensures { IfOk result (λ read. read
        ≡ (held_back (bounded bound keep.now circuit.now) keep.now).read_elsewhere) }
{
    let narrowed = bounded(alloc, circuit, keep, bound)?;
    let found = HeldBack::of(alloc, &narrowed, keep);
    drop(narrowed);
    Ok(found?.read_elsewhere)
}

/// Returns what was found, with the latches that a gate past the bound reads.
fn under_bound(
    alloc: Global,
    circuit: &Circuit,
    keep: &Keep,
    found: HeldBack,
    bound: u32,
) -> Result<HeldBack, NoMemory>
    requires { found ≡ held_back circuit.now keep.now }
    ensures { IfOk result (λ under. under
        ≡ held_back_within (Some bound) circuit.now keep.now) }
{
    let read = read_within(alloc, circuit, keep, bound)?;
    Ok(HeldBack {
        too_long: Some(read.saturating_sub(found.read_elsewhere)),
        ..found
    })
}
