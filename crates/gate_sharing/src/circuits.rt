//! Circuits side by side, with shared gates, whose latches read as given literals. What they are
//! told stands beside the gates, so that all of them are one graph in the end.
ghost use Rattle.std.specs.Prelude.{◌≡◌, ◌≤◌, ◌+◌, ◌++◌, [], IfOk, OnOk, length, map};
ghost use Rattle.aig_graph.specs.declared.literal.TheConstants.{MAX_VARIABLES};
ghost use Rattle.aig_graph.specs.Graph.{first_gate, variables_end};
ghost use Rattle.aig_graph.specs.Gates.{Grows, gates_of};
ghost use Rattle.gate_sharing.specs.Circuits.{copied_latch, no_equal};
ghost use Rattle.gate_sharing.specs.Copies.{AreShared, IsCopy, copied_end};

use crate::copied::{Copied, copy};
use crate::equalities::Equalities;
use crate::errors::SharingError;
use crate::shared::SharedGates;
use aig_graph::{Aig, Latch, NoMemory};
use std::alloc::Global;
use std::marker::Model;

/// Shared gates, and what the latches of the circuits are told.
pub struct SharedCircuits {
    gates: SharedGates,
    latches: Vec<Latch>,
}

impl Drop for SharedCircuits {
    // written out: docs/PROOFS.md, Drops and exits
    fn drop(self) {
        let SharedCircuits {
            gates: _gates,
            latches: _latches,
        } = self;
    }
}

impl Model for SharedCircuits {
    ghost use Rattle.gate_sharing.specs.Circuits.{AreTold, Circuits};

    ghost Value = { Circuits };

    ghost view = { λ s. record { gates = s.gates; latches = s.latches.items } };

    ghost invariant = { λ s. AreTold s.gates s.latches.items };
}

/// Adds the latches of a circuit, each with the shared literal of its next one.
fn push_latches(latches: &mut Vec<Latch>, copied: &Copied, aig: &Aig) -> Result<(), NoMemory>
    requires { copied_end copied.now ≡ variables_end aig.now }
    ensures { OnOk result (latches.new.items
        ≡ latches.old.items ++ map (copied_latch copied.now) aig.now.latches) }
{
    aig.known();
    for latch in aig.latches() {
        latches.push(Latch {
            next: copied.literal(latch.next),
            reset: latch.reset,
        })?;
    }
    Ok(())
}

impl SharedCircuits {
    /// Returns circuits of which there are none yet. Their gates begin after `first` variables.
    pub fn after(alloc: Global, first: u32) -> SharedCircuits
        requires { first ≤ MAX_VARIABLES }
        ensures { result ≡ record { gates = record { first = first; gates = [] }; latches = [] } }
    {
        SharedCircuits {
            gates: SharedGates::after(alloc, first),
            latches: Vec::new(alloc),
        }
    }

    /// Returns these circuits and one more, whose variables before its gates have these literals.
    /// The second part of the answer has one for each of its variables. Linear.
    pub fn with(
        self,
        alloc: Global,
        aig: &Aig,
        leaves: Copied,
    ) -> Result<(SharedCircuits, Copied), SharingError>
        requires long { copied_end leaves ≡ first_gate aig.now }
        requires within { AreShared self.gates leaves }
        ensures grows { IfOk result (λ more. Grows self.gates more.0.gates) }
        ensures copies { IfOk result (λ more. IsCopy more.0.gates (no_equal leaves.first) aig.now
            leaves more.1) }
        ensures latches { IfOk result (λ more. more.0.latches
            ≡ self.latches ++ map (copied_latch more.1) aig.now.latches) }
    {
        let SharedCircuits {
            mut gates,
            mut latches,
        } = self;
        aig.known();
        let mut equal = Equalities::none(alloc, leaves.first());
        let copied = copy(&mut gates, &mut equal, aig, leaves)?;
        push_latches(&mut latches, &copied, aig)?;
        Ok((SharedCircuits { gates, latches }, copied))
    }

    /// Returns all circuits as one graph, with an input for each variable before the latches. Takes
    /// linear time.
    pub fn graph(self, alloc: Global) -> Result<Aig, NoMemory>
        requires { 1 + length self.latches ≤ self.gates.first }
        ensures gates { IfOk result (λ aig. gates_of aig ≡ self.gates) }
        ensures latches { IfOk result (λ aig. aig.latches ≡ self.latches) }
    {
        let SharedCircuits { gates, latches } = self;
        gates.graph(alloc, latches)
    }
}
