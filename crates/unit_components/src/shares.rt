//! How the workers of a crew shared the work on a frame that is cut.

use unit_flows::GateFlow;

/// The work of each worker in each step.
#[derive(Drop)]
pub struct Shares {
    /// The number of workers that looked for components, each at a range of places.
    pub joining: usize,
    /// The number of parts of which each worker brought the flow, in worker order.
    pub drawing: Vec<usize>,
    /// The number of workers that put the flows of parts in the places of gates, each at a range of
    /// them.
    pub gathering: usize,
}

/// The flow of a frame by its parts, a hint, and how the work on it was shared.
#[derive(Drop)]
pub struct CutFlow {
    /// The flow at each gate.
    pub gates: Vec<GateFlow>,
    /// How it was shared.
    pub shares: Shares,
}
