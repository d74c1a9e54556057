//! A table has a literal for each variable, the constant's first, so that no kind of variable is a
//! case of its own.
ghost use Rattle.std.specs.Prelude.{◌≡◌, ◌<◌, ◌++◌, ◌∷◌, [], IfOk, OnOk, length};
ghost use Rattle.aig_graph.specs.Circuits.{AreLiteralsOf};
ghost use Rattle.aig_graph.specs.Graph.{IsGraph, first_gate, variable};
ghost use Rattle.map_circuits.specs.Growing.{Extends};
ghost use Rattle.map_circuits.specs.Instances.{IsInstance, substitute};

use crate::gates::add_conjunction;
use aig_graph::{Aig, AigBuilder, BuildError, Lit};
use std::marker::Model;

/// Of each variable of a circuit, from 0 on, the literal that stands for it.
#[derive(Drop)]
pub struct Instance {
    literals: Vec<Lit>,
}

impl Model for Instance {
    ghost use Rattle.std.specs.Prelude.{List, ℕ};

    ghost Value = { List ℕ };

    ghost view = { λ i. i.literals.items };
}

impl Instance {
    /// Returns the table of these literals, one for each variable.
    pub fn of(literals: Vec<Lit>) -> Instance
        ensures { result ≡ literals.items }
    {
        Instance { literals }
    }

    /// Returns the literal that stands for `lit`.
    pub fn literal(&self, lit: Lit) -> Lit
        requires { variable lit < length self.now }
        ensures { result ≡ substitute self.now lit }
    {
        self.literals[lit.var() as usize].signed_as(lit)
    }

    /// Adds the literal of the next variable.
    fn push(&mut self, lit: Lit) -> Result<(), BuildError>
        ensures { OnOk result (self.new ≡ self.old ++ lit ∷ []) }
    {
        self.literals.push(lit)?;
        Ok(())
    }
}

/// Adds the gates of a circuit, over literals that stand for the constant, its inputs and its
/// latches. Linear in the circuit.
///
/// # Errors
///
/// `NoMemory` if memory is refused, `TooLarge` if there would be more variables than a graph may
/// have. Some gates may then have been added.
pub fn add_instance(
    gates: &mut AigBuilder,
    aig: &Aig,
    leaves: Instance,
) -> Result<Instance, BuildError>
    requires graph { IsGraph gates.old }
    requires many { length leaves ≡ first_gate aig.now }
    requires within { AreLiteralsOf gates.old leaves }
    ensures extends { OnOk result (Extends gates.old gates.new) }
    ensures is { IfOk result (IsInstance gates.old aig.now leaves gates.new) }
{
    let mut instance = leaves;
    for gate in aig.gates() {
        let a = instance.literal(gate.rhs0);
        let b = instance.literal(gate.rhs1);
        let lit = add_conjunction(gates, a, b)?;
        instance.push(lit)?;
    }
    Ok(instance)
}
