//! The property literals of a circuit under the sequences of a block, a step after another.
ghost use Rattle.std.specs.Prelude.{ℕ, ◌≡◌, ◌+◌, ◌<◌, ◌≤◌, IfOk, length};
ghost use Rattle.lane_sim.specs.Blocks.{in_lane, row_in};
ghost use Rattle.lane_sim.specs.Runs.{IsRunOf};
ghost use Rattle.lane_sim.specs.Traces.{row_of};

use crate::lanes::Lanes;
use crate::steps::{State, Values, simulate_step};
use crate::stimulus::InputSequence;
use aig_graph::{Circuit, Lit, NoMemory, Sequence, property_literals};
use std::alloc::Global;

/// The property literals of a circuit, and its state.
#[derive(Drop)]
pub(crate) struct Run {
    literals: Vec<Lit>,
    state: State,
    values: Values,
}

impl Run {
    /// Returns a run before the first step of the sequences.
    pub(crate) fn open(
        alloc: Global,
        circuit: &Circuit,
        sequences: &[InputSequence],
    ) -> Result<Run, NoMemory>
        requires { length sequences.now ≤ 256 }
        ensures { IfOk result (IsRunOf circuit.now sequences.now 0) }
    {
        let aig = circuit.aig();
        let literals = property_literals(alloc, circuit.props())?;
        let values = Values::new(alloc, aig)?;
        let mut state = State::new(alloc, aig)?;
        state.open(aig, sequences);
        Ok(Run {
            literals,
            state,
            values,
        })
    }

    /// Returns the values of the property literals in the next step, which has the number `step`.
    pub(crate) fn next(
        &mut self,
        alloc: Global,
        circuit: &Circuit,
        sequences: &[InputSequence],
        step: usize,
    ) -> Result<Sequence<Lanes>, NoMemory>
        requires lanes { length sequences.now ≤ 256 }
        requires run { IsRunOf circuit.now sequences.now step self.old }
        ensures run { IfOk result (λ row. IsRunOf circuit.now sequences.now (step + 1) self.new) }
        ensures row { IfOk result (λ row. (k : ℕ) → k < 256
            → row_in k row ≡ row_of circuit.now (in_lane sequences.now k) step) }
    {
        simulate_step(
            alloc,
            &mut self.state,
            &mut self.values,
            circuit.aig(),
            self.literals.as_slice(),
            sequences,
            step,
        )
    }
}
