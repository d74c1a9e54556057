//! Sequential and-inverter graphs. Variables are numbered in the order constant, inputs, latches,
//! gates, and a gate reads only variables below its own. So a pass by rising variable meets fan-ins
//! before the gates that read them, and needs no sort.
ghost use Rattle.std.specs.Prelude.{◌≡◌, ◌-◌, ◌<◌, ◌≤◌, false, length};
ghost use Rattle.std.specs.List.{slice_index_or};
ghost use Rattle.aig_graph.specs.declared.literal.TheConstants.{MAX_VARIABLES};
ghost use Rattle.aig_graph.specs.Graph.{Graph, variable, first_latch};
ghost use Rattle.aig_graph.specs.Value.{opening_literal, reset_to, signed};

use crate::literal::Lit;
use std::marker::Model;

/// The value of a latch at step 0. A free latch is uninitialised: it has either value.
#[derive(Clone, Copy, PartialEq, Eq, Hash, Debug)]
pub enum Reset {
    Zero,
    One,
    Free,
}

impl From<bool> for Reset {
    ghost from_gives = { λ value reset. reset ≡ reset_to value };

    /// Returns the known reset with this value.
    fn from(value: bool) -> Reset {
        if value { Reset::One } else { Reset::Zero }
    }
}

/// A latch has at each later step the value that its next literal had at the step before.
#[derive(Clone, Copy, PartialEq, Eq, Hash, Debug)]
pub struct Latch {
    pub next: Lit,
    pub reset: Reset,
}

/// The AND of two literals, the larger first.
#[derive(Clone, Copy, PartialEq, Eq, Hash, Debug)]
pub struct Gate {
    pub rhs0: Lit,
    pub rhs1: Lit,
}

impl Gate {
    ghost use Rattle.aig_graph.specs.Building.{gate_of};

    /// Returns the gate of two literals, which may be in either order.
    pub fn of(a: Lit, b: Lit) -> Gate
        ensures { result ≡ gate_of a b }
    {
        if a < b {
            Gate { rhs0: b, rhs1: a }
        } else {
            Gate { rhs0: a, rhs1: b }
        }
    }
}

/// A sequential and-inverter graph. Variable 0 is the constant; after it come the inputs, the
/// latches and the gates, in this order. The fan-ins of a gate have variables below its own, all
/// literals are in range, and there are at most `MAX_VARIABLES` variables.
pub struct Aig {
    inputs: u32,
    latches: Vec<Latch>,
    gates: Vec<Gate>,
}

impl Drop for Aig {
    // written out: docs/PROOFS.md, Drops and exits
    fn drop(self) {
        let Aig {
            inputs: _inputs,
            latches: _latches,
            gates: _gates,
        } = self;
    }
}

impl Model for Aig {
    ghost use Rattle.aig_graph.specs.Graph.{Graph, IsGraph};

    ghost Value = { Graph };

    ghost view = { λ a. record { inputs = a.inputs; latches = a.latches.items; gates = a.gates.items } };

    ghost invariant = { λ a. IsGraph (record { inputs = a.inputs; latches = a.latches.items; gates = a.gates.items }) };
}

impl Aig {
    ghost use Rattle.aig_graph.specs.Graph.{IsGraph, first_gate, variables_end, latches_and_gates, gate_at, latch_at, is_known, free_latches, known_latches};

    /// Returns the graph of these parts, which are in range.
    pub fn from_parts(inputs: u32, latches: Vec<Latch>, gates: Vec<Gate>) -> Aig
        requires { IsGraph (record {
          inputs = inputs;
          latches = latches.items;
          gates = gates.items;
        }) }
        ensures { result ≡ record {
          inputs = inputs;
          latches = latches.items;
          gates = gates.items;
        } }
    {
        Aig {
            inputs,
            latches,
            gates,
        }
    }

    /// Returns the number of inputs, the latches and the gates. Takes no memory.
    pub fn into_parts(self) -> (u32, Vec<Latch>, Vec<Gate>)
        ensures inputs { result.0 ≡ self.inputs }
        ensures latches { result.1.items ≡ self.latches }
        ensures gates { result.2.items ≡ self.gates }
    {
        let Aig {
            inputs,
            latches,
            gates,
        } = self;
        (inputs, latches, gates)
    }

    /// Gives a caller the invariant of a graph, of which it sees the value alone. Costs nothing.
    pub fn known(&self)
        ensures { IsGraph self.now }
    {
        let _latches = self.latches.as_slice();
    }

    /// Returns the number of inputs.
    pub fn inputs(&self) -> u32
        ensures value { result ≡ self.now.inputs }
        ensures graph { IsGraph self.now }
    {
        self.inputs
    }

    /// Returns the latches.
    pub fn latches(&self) -> &[Latch]
        ensures value { result.now ≡ self.now.latches }
        ensures graph { IsGraph self.now }
    {
        self.latches.as_slice()
    }

    /// Returns the gates.
    pub fn gates(&self) -> &[Gate]
        ensures value { result.now ≡ self.now.gates }
        ensures graph { IsGraph self.now }
    {
        self.gates.as_slice()
    }

    /// Returns the variable of the first latch.
    pub fn first_latch(&self) -> u32
        ensures value { result ≡ first_latch self.now }
        ensures graph { IsGraph self.now }
    {
        1 + self.inputs
    }

    /// Returns the variable of the first gate.
    pub fn first_gate(&self) -> u32
        ensures value { result ≡ first_gate self.now }
        ensures graph { IsGraph self.now }
    {
        self.first_latch() + self.latches.len() as u32
    }

    /// Returns the number of variables, the constant among them.
    pub fn variables(&self) -> usize
        ensures value { result ≡ variables_end self.now }
        ensures small { result ≤ MAX_VARIABLES }
    {
        1 + self.inputs as usize + self.latches.len() + self.gates.len()
    }

    /// Returns the number of latches and gates, which is the length of a table by variable from the
    /// first latch on.
    pub fn latches_and_gates(&self) -> usize
        ensures value { result ≡ latches_and_gates self.now }
        ensures small { result ≤ MAX_VARIABLES }
    {
        self.latches.len() + self.gates.len()
    }

    /// Returns the latch at a variable, if there is one.
    pub fn latch(&self, var: u32) -> Option<Latch>
        ensures { result ≡ latch_at self.now var }
    {
        if var < self.first_latch() {
            return None;
        }
        self.latches
            .get((var - self.first_latch()) as usize)
            .copied()
    }

    /// Returns the gate at a variable, if there is one.
    pub fn gate(&self, var: u32) -> Option<Gate>
        ensures { result ≡ gate_at self.now var }
    {
        if var < self.first_gate() {
            return None;
        }
        self.gates.get((var - self.first_gate()) as usize).copied()
    }

    /// Returns true if the variable is a latch whose reset is known.
    pub fn is_known_latch(&self, var: u32) -> bool
        ensures { result ≡ is_known (latch_at self.now var) }
    {
        match self.latch(var) {
            Some(latch) => latch.reset != Reset::Free,
            None => false,
        }
    }

    /// Returns the number of latches whose reset is free.
    pub fn free_latches(&self) -> u32
        ensures { result ≡ free_latches self.now }
    {
        self.latches
            .iter()
            .filter(|latch| latch.reset == Reset::Free)
            .count() as u32
    }

    /// Returns the number of latches whose reset is known.
    pub fn known_latches(&self) -> u32
        ensures { result ≡ known_latches self.now }
    {
        self.latches
            .iter()
            .filter(|latch| latch.reset != Reset::Free)
            .count() as u32
    }
}

/// Returns the literal of the value of a latch with this reset at step 0, if `own` is the latch's
/// own literal.
pub fn opening_literal(reset: Reset, own: Lit) -> Lit
    ensures { result ≡ opening_literal reset own }
{
    match reset {
        Reset::Zero => Lit::FALSE,
        Reset::One => Lit::TRUE,
        Reset::Free => own,
    }
}

/// Returns the value of a literal whose latch or gate has its entry in `values`: the latches come
/// first, then the gates.
pub fn reset_value(aig: &Aig, values: &[bool], lit: Lit) -> bool
    requires past_inputs { first_latch aig.now ≤ variable lit }
    requires has_entry { variable lit - first_latch aig.now < length values.now }
    ensures { result ≡ signed lit (slice_index_or values.now
        (variable lit - first_latch aig.now) false) }
{
    lit.value(values[(lit.var() - aig.first_latch()) as usize])
}
