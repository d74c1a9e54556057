//! The records that a run keeps from circuit to circuit: flows, and the certificates of the sets
//! that were found.

use aig_graph::{Lit, NoMemory};
use certificates::Certificate;
use rebuild::MoveTables;
use std::alloc::Global;
use std::mem;
use unit_flows::{GateFlow, SpareTables, UnitFlow};

/// The flows and certificates that a run keeps from circuit to circuit.
#[derive(Drop)]
pub struct Records {
    /// The last flow, at the gates of the circuit that comes next: hints.
    pub flows: Vec<GateFlow>,
    /// The tables of the last flow of units, for the next one to use again.
    pub spare: SpareTables,
    /// A table of literals for the next move to use again.
    pub literals: Vec<Lit>,
    /// Records a certificate of each set. Otherwise none is made.
    pub certify: bool,
    /// The certificates of the sets that were found, in order.
    pub certificates: Vec<Certificate>,
    /// The number of sets found by a maximum flow of a network, since no flow of units showed them.
    pub networks: u32,
}

impl Records {
    ghost use Rattle.std.specs.Prelude.{◌≡◌, [], OnOk, true};
    ghost use Rattle.std.specs.Prelude.{ℕ, List};
    ghost use Rattle.aig_graph.specs.Circuits.{Netlist};
    ghost use Rattle.certificates.specs.Verdicts.{IsVerdict};
    ghost use Rattle.certificates.specs.declared.verdict.Verdict.TheVariants.{Yes};
    ghost use Rattle.chosen_cuts.specs.Certified.{AddsOne, AddsNone, ForgetsLast};

    /// Returns records of nothing yet.
    pub fn new(alloc: Global, certify: bool) -> Records
        ensures certify { result.certify ≡ certify }
        ensures certificates { result.certificates.items ≡ [] }
    {
        Records {
            flows: Vec::new(alloc),
            spare: SpareTables::none(alloc),
            literals: Vec::new(alloc),
            certify,
            certificates: Vec::new(alloc),
            networks: 0,
        }
    }

    /// Counts a set that a network finds.
    pub(crate) fn count_network(&mut self)
        ensures { AddsNone self.old self.new }
    {
        self.networks = self.networks.saturating_add(1);
    }

    /// Takes the flow and its tables out.
    pub(crate) fn take_flow(&mut self, alloc: Global) -> UnitFlow
        ensures { AddsNone self.old self.new }
    {
        UnitFlow {
            gates: mem::replace(&mut self.flows, Vec::new(alloc)),
            spare: mem::replace(&mut self.spare, SpareTables::none(alloc)),
        }
    }

    /// Keeps a flow and its tables.
    pub(crate) fn keep_flow(&mut self, flow: UnitFlow)
        ensures { AddsNone self.old self.new }
    {
        let UnitFlow { gates, spare } = flow;
        self.flows = gates;
        self.spare = spare;
    }

    /// Takes the tables of a move out.
    pub fn take_tables(&mut self, alloc: Global) -> MoveTables
        ensures { AddsNone self.old self.new }
    {
        MoveTables {
            numbers: self.spare.take_numbers(alloc),
            literals: mem::replace(&mut self.literals, Vec::new(alloc)),
        }
    }

    /// Keeps the tables of a move.
    pub fn keep_tables(&mut self, tables: MoveTables)
        ensures { AddsNone self.old self.new }
    {
        let MoveTables { numbers, literals } = tables;
        self.spare.keep_numbers(numbers);
        self.literals = literals;
    }

    /// Forgets the last certificate, if certificates are wanted: its set isn't taken after all.
    pub fn forget_last(&mut self)
        ensures { ForgetsLast self.old self.new }
    {
        if self.certify {
            let others = self.certificates.as_slice().len().saturating_sub(1);
            self.certificates.truncate(others);
        }
    }

    /// Adds a certificate to records that want certificates.
    pub(crate) fn add(&mut self, certificate: Certificate) -> Result<(), NoMemory>
        requires { self.old.certify ≡ true }
        ensures { (c : Netlist) (held : List ℕ) → IsVerdict c held certificate Yes
            → OnOk result (AddsOne c held self.old self.new certificate.gates) }
    {
        self.certificates.push(certificate)?;
        Ok(())
    }
}
