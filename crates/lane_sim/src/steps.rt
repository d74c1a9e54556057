//! A circuit under up to 256 sequences, a step after another. What its latches hold goes from step
//! to step, and nothing else is kept.
ghost use Rattle.std.specs.Prelude.{ℕ, ◌≡◌, ◌+◌, ◌<◌, ◌≤◌, All, IfOk, List, length, map};
ghost use Rattle.aig_graph.specs.Graph.{Graph, variable, variables_end};
ghost use Rattle.lane_sim.specs.declared.stimulus.InputSequence.{InputSequence as Sequenced};
ghost use Rattle.lane_sim.specs.Blocks.{in_lane, row_in};
ghost use Rattle.lane_sim.specs.Steps.{AreAt, AreFor, HoldsAt, IsStateFor};
ghost use Rattle.lane_sim.specs.Traces.{value_in};

use crate::lanes::Lanes;
use crate::stimulus::InputSequence;
use crate::table::{advance, fill, literal_lanes, open_state, read_literals};
use aig_graph::{Aig, Lit, NoMemory, Sequence};
use std::alloc::Global;

/// What the latches of a graph hold at a step of up to 256 sequences.
#[derive(Drop)]
pub struct State {
    latches: Vec<Lanes>,
}

/// The values of all variables of a graph in a step of up to 256 sequences.
#[derive(Drop)]
pub struct Values {
    table: Vec<Lanes>,
}

impl State {
    /// Returns room for the values of the latches of a graph.
    pub fn new(alloc: Global, aig: &Aig) -> Result<State, NoMemory>
        ensures { IfOk result (IsStateFor aig.now) }
    {
        let latches = vec![in alloc; Lanes::none(); aig.latches().len()]?;
        Ok(State { latches })
    }

    /// Sets the latches to their values before the first step of sequences. Takes no memory.
    pub fn open(&mut self, aig: &Aig, sequences: &[InputSequence])
        requires lanes { length sequences.now ≤ 256 }
        requires room { IsStateFor aig.now self.old }
        ensures { HoldsAt aig.now sequences.now self.new 0 }
    {
        open_state(self.latches.as_mut_slice(), aig, sequences);
    }

    /// Sets the latches to their values after the step in which all variables have these values.
    /// Takes no memory.
    pub fn advance(&mut self, aig: &Aig, values: &Values)
        requires room { IsStateFor aig.now self.old }
        requires values { AreFor aig.now values.now }
        ensures room { IsStateFor aig.now self.new }
        ensures next { (sequences : List Sequenced) (t : ℕ) → AreAt aig.now sequences values.now t
            → HoldsAt aig.now sequences self.new (t + 1) }
    {
        advance(self.latches.as_mut_slice(), values.table.as_slice(), aig);
    }
}

impl Values {
    /// Returns room for the values of all variables of a graph.
    pub fn new(alloc: Global, aig: &Aig) -> Result<Values, NoMemory>
        ensures { IfOk result (AreFor aig.now) }
    {
        let table = vec![in alloc; Lanes::none(); aig.variables()]?;
        Ok(Values { table })
    }

    /// Computes the values in a step of sequences, by the values of the latches there. Takes no
    /// memory.
    pub fn evaluate(&mut self, aig: &Aig, state: &State, sequences: &[InputSequence], step: usize)
        requires lanes { length sequences.now ≤ 256 }
        requires room { AreFor aig.now self.old }
        requires state { HoldsAt aig.now sequences.now state.now step }
        ensures { AreAt aig.now sequences.now self.new step }
    {
        fill(
            self.table.as_mut_slice(),
            aig,
            state.latches.as_slice(),
            sequences,
            step,
        );
    }

    /// Returns the value of a literal in the lane of a sequence.
    pub fn get(&self, lane: usize, lit: Lit) -> bool
        requires lane { lane < 256 }
        requires literal { variable lit < length self.now.table.items }
        ensures { (g : Graph) (sequences : List Sequenced) (t : ℕ) → AreAt g sequences self.now t
            → result ≡ value_in g (in_lane sequences lane) t lit }
    {
        literal_lanes(self.table.as_slice(), lit).get(lane)
    }

    /// Returns the values of literals.
    pub(crate) fn read(&self, alloc: Global, literals: &[Lit]) -> Result<Sequence<Lanes>, NoMemory>
        requires { All (λ lit. variable lit < length self.now.table.items) literals.now }
        ensures { IfOk result (λ row. (g : Graph) (sequences : List Sequenced) (k t : ℕ) → k < 256
            → AreAt g sequences self.now t
            → row_in k row ≡ map (value_in g (in_lane sequences k) t) literals.now) }
    {
        read_literals(alloc, self.table.as_slice(), literals)
    }
}

/// Returns the values of literals in a step. The state is then that of the next one.
pub(crate) fn simulate_step(
    alloc: Global,
    state: &mut State,
    values: &mut Values,
    aig: &Aig,
    literals: &[Lit],
    sequences: &[InputSequence],
    step: usize,
) -> Result<Sequence<Lanes>, NoMemory>
    requires lanes { length sequences.now ≤ 256 }
    requires literals { All (λ lit. variable lit < variables_end aig.now) literals.now }
    requires state { HoldsAt aig.now sequences.now state.old step }
    requires values { AreFor aig.now values.old }
    ensures state { IfOk result (λ row. HoldsAt aig.now sequences.now state.new (step + 1)) }
    ensures values { IfOk result (λ row. AreFor aig.now values.new) }
    ensures row { IfOk result (λ row. (k : ℕ) → k < 256
        → row_in k row ≡ map (value_in aig.now (in_lane sequences.now k) step) literals.now) }
{
    values.evaluate(aig, state, sequences, step);
    let row = values.read(alloc, literals)?;
    state.advance(aig, values);
    Ok(row)
}
