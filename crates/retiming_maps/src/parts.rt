use aig_graph::Lit;
use map_circuits::{LatchFunctions, MapGates};

/// A state map, as far as it has come. It is made by [`identity`](crate::identity), and follows a
/// circuit by what the other functions do.
#[derive(Drop)]
pub struct MapParts {
    /// Gates over an input for each latch of the circuit that was read.
    pub gates: MapGates,
    /// What each latch of the circuit that the run has come to holds.
    pub functions: LatchFunctions,
    /// What the functions rest on.
    pub constraints: Vec<Lit>,
}
