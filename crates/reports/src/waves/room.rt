//! Room for simulating a circuit while its waves are written. A dump goes from time to time and not
//! from sequence to sequence, so the values of latches are kept for each block of sequences. Those
//! of all variables aren't.
ghost use Rattle.std.specs.Prelude.{◌≡◌, ◌+◌, ◌^◌, ◌<◌, ◌≤◌, All, IfOk, length};
ghost use Rattle.lane_sim.specs.Steps.{AreAt, AreFor, HoldsAt, IsStateFor};
ghost use Rattle.reports.specs.waves.Moments.{IsWaveRoomFor};

use crate::waves::moment::LANES;
use aig_graph::{Aig, Circuit, Lit, NoMemory, property_literals};
use lane_sim::{InputSequence, State, Stimulus, Values};
use std::alloc::Global;

/// Room for the waves of a circuit under a stimulus.
#[derive(Drop)]
pub struct WaveRoom {
    pub(crate) literals: Vec<Lit>,
    /// What the latches hold, for each block.
    pub(crate) states: Vec<State>,
    /// The values of a block at the time before.
    pub(crate) before: Values,
    /// Those at the time.
    pub(crate) values: Values,
}

/// Returns room for the values of the latches in `blocks` blocks.
fn states(alloc: Global, aig: &Aig, blocks: usize) -> Result<Vec<State>, NoMemory>
    ensures many { IfOk result (λ states. length states.items ≡ blocks) }
    ensures each { IfOk result (λ states. All (IsStateFor aig.now) states.items) }
{
    let mut states = Vec::with_capacity(alloc, blocks)?;
    for _block in 0..blocks {
        let state = State::new(alloc, aig)?;
        states.push(state)?;
    }
    Ok(states)
}

impl WaveRoom {
    /// Returns room for this circuit and this stimulus: a table for each block of 256 sequences by
    /// latch, and two tables by variable.
    ///
    /// # Errors
    ///
    /// Memory is refused.
    pub fn new(alloc: Global, circuit: &Circuit, stimulus: &Stimulus) -> Result<WaveRoom, NoMemory>
        ensures { IfOk result (IsWaveRoomFor circuit.now stimulus.now) }
    {
        let aig = circuit.aig();
        let literals = property_literals(alloc, circuit.props())?;
        let before = Values::new(alloc, aig)?;
        let values = Values::new(alloc, aig)?;
        let states = states(alloc, aig, stimulus.sequences().div_ceil(LANES))?;
        Ok(WaveRoom {
            literals,
            states,
            before,
            values,
        })
    }
}

/// Computes the values of a block at its first step.
pub(crate) fn open_block(
    state: &mut State,
    values: &mut Values,
    aig: &Aig,
    sequences: &[InputSequence],
)
    requires lanes { length sequences.now ≤ 256 }
    requires state { IsStateFor aig.now state.old }
    requires values { AreFor aig.now values.old }
    ensures state { HoldsAt aig.now sequences.now state.new 0 }
    ensures values { AreAt aig.now sequences.now values.new 0 }
{
    state.open(aig, sequences);
    values.evaluate(aig, state, sequences, 0);
}

/// Computes the values of a block at a step and at the next one, which its latches come to.
pub(crate) fn advance_block(
    state: &mut State,
    before: &mut Values,
    values: &mut Values,
    aig: &Aig,
    sequences: &[InputSequence],
    step: usize,
)
    requires lanes { length sequences.now ≤ 256 }
    requires state { HoldsAt aig.now sequences.now state.old step }
    requires before { AreFor aig.now before.old }
    requires values { AreFor aig.now values.old }
    requires next { step + 1 < 2 ^ 64 }
    ensures state { HoldsAt aig.now sequences.now state.new (step + 1) }
    ensures before { AreAt aig.now sequences.now before.new step }
    ensures values { AreAt aig.now sequences.now values.new (step + 1) }
{
    before.evaluate(aig, state, sequences, step);
    state.advance(aig, before);
    values.evaluate(aig, state, sequences, step + 1);
}
