//! How many registers hold, and in how many classes: those with one hold are of one class.
ghost use Rattle.std.specs.Prelude.{◌≡◌, ◌<◌, IfOk, count_by};
ghost use Rattle.aig_graph.specs.declared.literal.TheConstants.{MAX_VARIABLES};
ghost use Rattle.hold_counts.specs.Holds.{hold_at, holding, holds, is_hold};

use crate::choices::hold_of;
use aig_graph::{Aig, Keep, NoMemory, marks_of};
use std::alloc::Global;

/// How many registers hold.
#[derive(Clone, Copy)]
pub struct Holding {
    /// The registers that hold, may move, and have a known reset.
    pub latches: u64,
    /// The literals by which these hold, each once.
    pub classes: u64,
}

/// Returns what the latch at a variable holds by if it may move, or 0.
fn hold_at(aig: &Aig, keep: &Keep, var: u32) -> u32
    requires { var < MAX_VARIABLES }
    ensures { result ≡ hold_at aig.now keep.now var }
{
    if !keep.may_move(aig, var) {
        return 0;
    }
    match aig.latch(var) {
        Some(latch) => hold_of(aig, var, latch.next),
        None => 0,
    }
}

/// Returns what each latch holds by.
fn holds_of(alloc: Global, aig: &Aig, keep: &Keep) -> Result<Vec<u32>, NoMemory>
    ensures { IfOk result (λ found. found.items ≡ holds aig.now keep.now) }
{
    let (first, end) = (aig.first_latch(), aig.first_gate());
    let many = end - first;
    let mut found = Vec::with_capacity(alloc, many as usize)?;
    for place in 0..many {
        found.push(hold_at(aig, keep, first + place))?;
    }
    Ok(found)
}

/// Returns how many of these are holds.
fn count_holds(found: &[u32]) -> u64
    ensures { result ≡ count_by is_hold found.now }
{
    found.iter().filter(|hold| **hold != 0).count() as u64
}

/// Returns how many marks are set.
fn count_marks(marks: &[bool]) -> u64
    ensures { result ≡ count_by (λ mark. mark) marks.now }
{
    marks.iter().filter(|mark| **mark).count() as u64
}

impl Holding {
    /// Counts the registers that hold and may move. Linear in the circuit, but for a search among
    /// the held latches.
    ///
    /// # Errors
    ///
    /// Memory is refused.
    #[tactic(auto, unfolding(crate::specs::Holds::holding))]
    pub fn of(alloc: Global, aig: &Aig, keep: &Keep) -> Result<Holding, NoMemory>
        ensures { IfOk result (λ found. found ≡ holding aig.now keep.now) }
    {
        let found = holds_of(alloc, aig, keep)?;
        let marks = marks_of(alloc, 1, 2 * aig.variables(), found.as_slice())?;
        Ok(Holding {
            latches: count_holds(found.as_slice()),
            classes: count_marks(marks.as_slice()),
        })
    }
}
