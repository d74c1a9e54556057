//! The gates of a circuit among shared ones.
ghost use Rattle.std.specs.Prelude.{◌≡◌, ◌<◌, ◌≤◌, All, IfOk, IfSome, OnOk, true};
ghost use Rattle.aig_graph.specs.Graph.{first_gate, variable};
ghost use Rattle.aig_graph.specs.Gates.{Gates, Grows, gates_end};
ghost use Rattle.gate_sharing.specs.Equal.{StaysRight};
ghost use Rattle.gate_sharing.specs.Copies.{AreShared, IsCopy, copied_end, copy_of, with_literal};

use crate::equalities::Equalities;
use crate::errors::SharingError;
use crate::shared::SharedGates;
use aig_graph::{Aig, Lit, NoMemory};
use std::alloc::Global;
use std::marker::Model;

/// A shared literal for each variable of a circuit, from a first one on. The variables before it
/// are the same in both.
pub struct Copied {
    first: u32,
    literals: Vec<Lit>,
}

impl Drop for Copied {
    // written out: docs/PROOFS.md, Drops and exits
    fn drop(self) {
        let Copied {
            first: _first,
            literals: _literals,
        } = self;
    }
}

impl Model for Copied {
    ghost use Rattle.gate_sharing.specs.Copies.{Copy};

    ghost Value = { Copy };

    ghost view = { λ c. record { first = c.first; literals = c.literals.items } };
}

impl Copied {
    /// Returns these literals as copies of the variables from a first one on.
    pub fn of(first: u32, literals: Vec<Lit>) -> Copied
        ensures { result ≡ record { first = first; literals = literals.items } }
    {
        Copied { first, literals }
    }

    /// Returns the variable of the first literal.
    pub fn first(&self) -> u32
        ensures { result ≡ self.now.first }
    {
        self.first
    }

    /// Returns the shared literal of one of the circuit.
    #[tactic(auto, unfolding(crate::specs::Copies::copy_of))]
    pub fn literal(&self, lit: Lit) -> Lit
        requires { variable lit < copied_end self.now }
        ensures { result ≡ copy_of self.now lit }
    {
        let var = lit.var();
        if var < self.first {
            return lit;
        }
        self.literals[(var - self.first) as usize].signed_as(lit)
    }

    /// Adds the literal of the next variable.
    fn push(&mut self, lit: Lit) -> Result<(), NoMemory>
        ensures { OnOk result (self.new ≡ with_literal self.old lit) }
    {
        self.literals.push(lit)?;
        Ok(())
    }
}

/// Returns true if all literals are of variables below this one.
fn are_below(lits: &[Lit], end: u32) -> bool
    ensures { result ≡ true → All (λ lit. variable lit < end) lits.now }
{
    lits.iter().all(|lit| lit.var() < end)
}

/// Returns these literals as copies of the variables from a first one on, if all are of variables
/// below `end`.
pub fn leaves_below(
    alloc: Global,
    first: u32,
    lits: &[Lit],
    end: u32,
) -> Result<Option<Copied>, NoMemory>
    requires { first ≤ end }
    ensures leaves { IfOk result (λ found. IfSome found (λ leaves. leaves
        ≡ record { first = first; literals = lits.now })) }
    ensures within { IfOk result (λ found. IfSome found (λ leaves. (k : Gates)
        → end ≤ gates_end k → AreShared k leaves)) }
{
    if !are_below(lits, end) {
        return Ok(None);
    }
    let mut literals = Vec::new(alloc);
    literals.extend_from_slice(lits)?;
    Ok(Some(Copied { first, literals }))
}

/// Copies the gates of a graph, whose variables before the gates have these literals. Gates that
/// are there already are taken, and what stands for a literal is taken for it. Linear.
pub fn copy(
    shared: &mut SharedGates,
    equal: &mut Equalities,
    aig: &Aig,
    leaves: Copied,
) -> Result<Copied, SharingError>
    requires long { copied_end leaves ≡ first_gate aig.now }
    requires within { AreShared shared.old leaves }
    ensures grows { OnOk result (Grows shared.old shared.new) }
    ensures right { OnOk result (StaysRight equal.old equal.new) }
    ensures copies { IfOk result (IsCopy shared.new equal.old aig.now leaves) }
{
    let mut copied = leaves;
    for gate in aig.gates() {
        let a = equal.find(copied.literal(gate.rhs0));
        let b = equal.find(copied.literal(gate.rhs1));
        let lit = shared.gate(a, b)?;
        copied.push(equal.find(lit))?;
    }
    Ok(copied)
}
