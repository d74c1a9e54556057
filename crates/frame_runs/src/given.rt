//! A circuit that is given to a run, lent or for good.
ghost use Rattle.std.specs.Prelude.{◌≡◌};

use aig_graph::Circuit;

/// A circuit that is to be cleaned.
#[derive(Drop)]
pub enum GivenCircuit<'a> {
    /// It stays as it is.
    Lent(&'a Circuit),
    /// Nobody else needs it. It is let go as it is cleaned, so its own tables may be used.
    Owned(Circuit),
}

impl<'a> GivenCircuit<'a> {
    ghost use Rattle.frame_runs.specs.Given.{circuit_of};

    /// Returns the circuit.
    pub fn circuit(&self) -> &Circuit
        ensures { result.now ≡ circuit_of self.now }
    {
        match self {
            GivenCircuit::Lent(circuit) => circuit,
            GivenCircuit::Owned(circuit) => circuit,
        }
    }
}
