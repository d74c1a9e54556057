//! The literals that must be 1 if some are, found gate by gate. A budget bounds the visits of
//! gates: a question that spends it stays open.
ghost use Rattle.std.specs.Prelude.{ℕ, ◌≡◌, Bool, true, false, IfOk};
ghost use Rattle.aig_graph.specs.Gates.{AreEqualIn, AreOne, IsNegated, Respects, gates_of};
ghost use Rattle.unit_refutations.specs.Assigned.{Holds};

use crate::assigned::Assigned;
use crate::gates::visit;
use crate::readers::Readers;
use aig_graph::{Aig, Lit, NoMemory};
use std::alloc::Global;

/// What questions about a graph's gates need beside them, and how many visits of gates are left for
/// them. Asked about another graph it may find less, and nothing wrong.
pub struct Propagation {
    pub(crate) assigned: Assigned,
    readers: Readers,
    left: u32,
}

impl Drop for Propagation {
    // written out: docs/PROOFS.md, Drops and exits
    fn drop(self) {
        let Propagation {
            assigned: _assigned,
            readers: _readers,
            left: _left,
        } = self;
    }
}

/// Takes what follows of the gate at a place. Whether that contradicts what is known.
fn visit_place(assigned: &mut Assigned, aig: &Aig, place: usize) -> Result<bool, NoMemory>
    ensures { IfOk result (λ clash. (values : ℕ → Bool) → Respects (gates_of aig.now) values
        → Holds assigned.old values → (clash ≡ false) × Holds assigned.new values) }
{
    aig.known();
    let Some(gate) = aig.gates().get(place) else {
        return Ok(false);
    };
    let own = Lit::new(aig.first_gate() + place as u32, false);
    visit(assigned, gate, own)
}

/// Takes what follows, gate by gate, while visits are left. Whether that contradicts what is known.
fn propagate(
    assigned: &mut Assigned,
    readers: &mut Readers,
    aig: &Aig,
    left: &mut u32,
) -> Result<bool, NoMemory>
    ensures { IfOk result (λ clash. (values : ℕ → Bool) → Respects (gates_of aig.now) values
        → Holds assigned.old values → clash ≡ false) }
{
    readers.begin();
    let visits = *left;
    for step in 0..visits {
        let Some(place) = readers.next(assigned.trail()) else {
            return Ok(false);
        };
        *left = visits - step - 1;
        if visit_place(assigned, aig, place)? {
            return Ok(true);
        }
    }
    Ok(false)
}

/// Takes these literals for 1. Whether one is known to be 0.
fn assume_all(assigned: &mut Assigned, lits: &[Lit]) -> Result<bool, NoMemory>
    ensures { IfOk result (λ clash. (values : ℕ → Bool) → IsNegated values → AreOne values lits.now
        → Holds assigned.old values → (clash ≡ false) × Holds assigned.new values) }
{
    for lit in lits {
        if assigned.assume(*lit)? {
            return Ok(true);
        }
    }
    Ok(false)
}

impl Propagation {
    ghost use Rattle.aig_graph.specs.Gates.{IsZeroWhere, Refutes};

    /// Returns a state for questions about a graph's gates, with no visits left for them yet.
    /// Linear.
    ///
    /// # Errors
    ///
    /// `NoMemory` if memory is refused.
    pub fn of(alloc: Global, aig: &Aig) -> Result<Propagation, NoMemory> {
        Ok(Propagation {
            assigned: Assigned::of(alloc, aig.variables())?,
            readers: Readers::of(alloc, aig)?,
            left: 0,
        })
    }

    /// Sets the number of visits of gates that the next questions may take in all.
    pub fn allow(&mut self, visits: u32) {
        self.left = visits;
    }

    /// Returns the number of visits that are left. If none are, a question that wasn't refuted may
    /// have been given up.
    pub fn left(&self) -> u32 {
        self.left
    }

    /// Returns the literals that the last question took or found to be 1, in the order in which
    /// they were found. If it stayed open, a state that parts its sides may lie there.
    pub fn trail(&self) -> &[Lit] {
        self.assigned.trail()
    }

    /// Returns true if propagation shows that a literal is 0 wherever these are 1. False says
    /// nothing.
    ///
    /// # Errors
    ///
    /// `NoMemory` if memory is refused; another question may be asked all the same.
    pub fn refuted_with(&mut self, aig: &Aig, lits: &[Lit], lit: Lit) -> Result<bool, NoMemory>
        ensures { IfOk result (λ refuted. refuted ≡ true
            → IsZeroWhere (gates_of aig.now) lits.now lit) }
    {
        if !self.assigned.begin() {
            return Ok(false);
        }
        if self.assigned.assume(Lit::TRUE)? {
            return Ok(true);
        }
        if self.assigned.assume(lit)? {
            return Ok(true);
        }
        if assume_all(&mut self.assigned, lits)? {
            return Ok(true);
        }
        propagate(&mut self.assigned, &mut self.readers, aig, &mut self.left)
    }

    /// Returns true if propagation shows that these literals can't all be 1. The answer no says
    /// nothing.
    ///
    /// # Errors
    ///
    /// `NoMemory` if memory is refused; another question may still be asked.
    pub fn refuted(&mut self, aig: &Aig, lits: &[Lit]) -> Result<bool, NoMemory>
        ensures { IfOk result (λ refuted. refuted ≡ true → Refutes (gates_of aig.now) lits.now) }
    {
        self.refuted_with(aig, lits, Lit::TRUE)
    }

    /// Returns true if propagation shows that two literals are always equal: that neither can be 1
    /// without the other. The answer no says nothing.
    ///
    /// # Errors
    ///
    /// `NoMemory` if memory is refused; another question may still be asked.
    pub fn equal(&mut self, aig: &Aig, a: Lit, b: Lit) -> Result<bool, NoMemory>
        ensures { IfOk result (λ equal. equal ≡ true → AreEqualIn (gates_of aig.now) a b) }
    {
        if a == b {
            return Ok(true);
        }
        if !self.refuted(aig, &[a, b.not()])? {
            return Ok(false);
        }
        self.refuted(aig, &[a.not(), b])
    }
}
