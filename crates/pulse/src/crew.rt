ghost use Rattle.std.specs.Prelude.{◌≡◌, ◌<◌, ◌≤◌};

use crate::gate::PhaseGate;

/// The workers of a phase: from 1 to 64. Worker i of n has the nodes from `i * N / n` up to
/// `(i + 1) * N / n` of N nodes; its range may be empty. A crew of one starts no thread.
#[derive(Drop)]
pub struct Crew<G: PhaseGate> {
    workers: u32,
    gate: G,
    ghost some: { 0 < workers },
    ghost few: { workers ≤ 64 },
}

impl<G: PhaseGate> Crew<G> {
    pub fn new(workers: u32, gate: G) -> Crew<G>
        requires some { 0 < workers }
        requires few { workers ≤ 64 }
        ensures workers { result.workers ≡ workers }
        ensures gate { result.gate ≡ gate }
    {
        Crew { workers, gate }
    }

    /// Returns the number of workers.
    pub fn workers(&self) -> u32
        ensures value { result ≡ self.now.workers }
        ensures some { 0 < result }
        ensures few { result ≤ 64 }
    {
        self.workers
    }

    /// Returns the gate of the workers.
    pub fn gate(&self) -> &G
        ensures { result.now ≡ self.now.gate }
    {
        &self.gate
    }
}
