//! Graphs that grow gate by gate. A latch begins with the constant false as its next literal, since
//! the gate that it reads is made after it.
ghost use Rattle.std.specs.Prelude.{◌≡◌, ◌+◌, ◌*◌, ◌<◌, ◌≤◌, ◌↔◌, length, OnOk, OnErr, IfOk, IsErrOf, slice_get, slice_set, Some};
ghost use Rattle.aig_graph.specs.Graph.{variables_end, IsLiteralOf};
ghost use Rattle.aig_graph.specs.Building.{without_gates, gate_of, with_gate, with_next};
ghost use Rattle.aig_graph.specs.declared.literal.TheConstants.{MAX_VARIABLES};
ghost use Rattle.aig_graph.specs.declared.build.BuildError.TheVariants.{NoMemory};

use crate::graph::{Aig, Gate, Latch, Reset};
use crate::literal::{Lit, MAX_VARIABLES};
use std::alloc::{AllocError, AllocFailed, Global};
use std::marker::Model;
use thiserror::Error;

/// Why a builder refuses.
#[derive(Clone, Copy, Debug, PartialEq, Eq, Error)]
pub enum BuildError {
    /// Memory was refused.
    #[error("out of memory")]
    NoMemory,
    /// There would be more variables than a graph may have. This is found before memory is asked
    /// for.
    #[error("too many variables")]
    TooLarge,
}

impl BuildError {
    ghost use Rattle.aig_graph.specs.Codes.{build_error_code};

    /// Returns the number of the fault.
    pub fn code(self) -> u8
        ensures { result ≡ build_error_code self }
    {
        match self {
            BuildError::NoMemory => 1,
            BuildError::TooLarge => 2,
        }
    }
}

impl From<AllocError> for BuildError {
    ghost from_gives = { λ _ e. e ≡ NoMemory };

    fn from(_error: AllocError) -> BuildError {
        BuildError::NoMemory
    }
}

impl<T: Drop> From<AllocFailed<T>> for BuildError {
    ghost from_gives = { λ _ e. e ≡ NoMemory };

    fn from(_error: AllocFailed<T>) -> BuildError {
        BuildError::NoMemory
    }
}

/// A graph that grows gate by gate.
#[derive(Drop)]
pub struct AigBuilder {
    inputs: u32,
    latches: Vec<Latch>,
    gates: Vec<Gate>,
}

impl Model for AigBuilder {
    ghost use Rattle.aig_graph.specs.Graph.{Graph, IsGraph};

    ghost Value = { Graph };

    ghost view = { λ a. record { inputs = a.inputs; latches = a.latches.items; gates = a.gates.items } };

    ghost invariant = { λ a. IsGraph (record { inputs = a.inputs; latches = a.latches.items; gates = a.gates.items }) };
}

impl AigBuilder {
    /// Makes a graph with `inputs` inputs, a latch for each of `resets`, the constant false as each
    /// next literal, and no gate. Fails with `TooLarge` if and only if the variables would be more
    /// than a graph may have.
    pub fn new(alloc: Global, inputs: u32, resets: Vec<Reset>) -> Result<AigBuilder, BuildError>
        ensures ok { IfOk result (λ builder. builder ≡ without_gates inputs resets.items) }
        ensures too_large { IsErrOf result BuildError.TooLarge ↔
            (MAX_VARIABLES ≤ inputs + length resets.items) }
    {
        let room = MAX_VARIABLES - 1;
        if inputs as usize > room || resets.len() > room - inputs as usize {
            return Err(BuildError::TooLarge);
        }
        let latches = resets
            .into_iter()
            .map(|reset| Latch {
                next: Lit::FALSE,
                reset,
            })
            .collect(alloc)?;
        Ok(AigBuilder {
            inputs,
            latches,
            gates: Vec::new(alloc),
        })
    }

    /// Returns the number of variables, the constant among them.
    fn variables(&self) -> usize
        ensures variables { result ≡ variables_end self.now }
        ensures small { result ≤ MAX_VARIABLES }
    {
        1 + self.inputs as usize + self.latches.len() + self.gates.len()
    }

    /// Adds the gate of two literals, and returns its literal. Equal gates are not shared. After an
    /// `Err` the builder is as it was.
    pub fn and(&mut self, a: Lit, b: Lit) -> Result<Lit, BuildError>
        requires a { IsLiteralOf self.old a }
        requires b { IsLiteralOf self.old b }
        ensures ok { OnOk result (self.new ≡ with_gate self.old (gate_of a b)) }
        ensures literal { IfOk result (λ lit. lit ≡ 2 * variables_end self.old) }
        ensures too_large { IsErrOf result BuildError.TooLarge ↔
            (variables_end self.old ≡ MAX_VARIABLES) }
        ensures err { OnErr result (self.new ≡ self.old) }
    {
        let variable = self.variables();
        if variable == MAX_VARIABLES {
            return Err(BuildError::TooLarge);
        }
        self.gates.push(Gate::of(a, b))?;
        Ok(Lit::new(variable as u32, false))
    }

    /// Replaces the next literal of latch `k`, counted from 0.
    pub fn set_latch(&mut self, k: usize, next: Lit)
        requires k { k < length self.old.latches }
        requires next { IsLiteralOf self.old next }
        ensures { self.new ≡ with_next self.old k next }
    {
        self.latches[k].next = next;
    }

    /// Returns the graph that was built. Takes no memory.
    pub fn finish(self) -> Aig
        ensures { result ≡ self }
    {
        let AigBuilder {
            inputs,
            latches,
            gates,
        } = self;
        Aig::from_parts(inputs, latches, gates)
    }
}
