//! The values of the waves of a block's sequences at a time and at the one before. A dump tells
//! what changes from one to the other.
ghost use Rattle.std.specs.Prelude.{◌≡◌, ◌-◌, ◌/◌, ◌<◌, All, List, length};
ghost use Rattle.aig_graph.specs.Graph.{Graph, variable};
ghost use Rattle.lane_sim.specs.declared.stimulus.InputSequence.{InputSequence as Sequenced};
ghost use Rattle.lane_sim.specs.Blocks.{in_lane};
ghost use Rattle.lane_sim.specs.Steps.{AreAt};
ghost use Rattle.reports.specs.waves.Dumps.{is_dumped, value_character, value_character_at};
ghost use Rattle.reports.specs.waves.Moments.{shown_of, trace_of, IsMoment};

use aig_graph::{Circuit, Lit};
use lane_sim::{InputSequence, Values};

/// The sequences of a block.
pub(crate) const LANES: usize = 256;

/// The sequences of a block at a time: the values of all variables then, and at the time before.
/// The property literals of a circuit are shown of them.
#[derive(Clone, Copy)]
pub(crate) struct Moment<'a> {
    pub(crate) circuit: &'a Circuit,
    pub(crate) literals: &'a [Lit],
    /// All sequences, of which the block has some.
    pub(crate) sequences: &'a [InputSequence],
    pub(crate) before: &'a Values,
    pub(crate) values: &'a Values,
    pub(crate) time: usize,
}

/// Returns the letter that a value is written as.
fn mark(value: Option<bool>) -> u8
    ensures { result ≡ value_character value }
{
    match value {
        Some(true) => b'1',
        Some(false) => b'0',
        None => b'x',
    }
}

/// Returns the value of a literal at a time of a sequence, or `None` after its last step.
fn value_at(
    values: &Values,
    literals: &[Lit],
    sequence: &InputSequence,
    lane: usize,
    time: usize,
    place: usize,
) -> Option<bool>
    requires lane { lane < 256 }
    requires literals { All (λ lit. variable lit < length values.now.table.items) literals.now }
    ensures { (g : Graph) (sequences : List Sequenced) → AreAt g sequences values.now time
        → in_lane sequences lane ≡ sequence.now
        → result ≡ shown_of g sequence.now literals.now time place }
{
    if sequence.steps.len() <= time {
        return None;
    }
    let lit = literals.get(place)?;
    Some(values.get(lane, *lit))
}

impl Moment<'_> {
    /// Returns the mark of a wave's value at the time.
    pub(crate) fn mark(&self, sequence: usize, place: usize) -> u8
        requires moment { IsMoment (sequence / 256) self.now }
        requires sequence { sequence < length self.now.sequences.now }
        ensures { result ≡ value_character_at (trace_of self.now) sequence self.now.time place }
    {
        let run = &self.sequences[sequence];
        let lane = sequence % LANES;
        mark(value_at(self.values, self.literals, run, lane, self.time, place))
    }

    /// Returns the mark of a wave's value at the time before.
    fn mark_before(&self, sequence: usize, place: usize) -> u8
        requires moment { IsMoment (sequence / 256) self.now }
        requires sequence { sequence < length self.now.sequences.now }
        requires later { 0 < self.now.time }
        ensures { result ≡ value_character_at (trace_of self.now) sequence (self.now.time - 1) place }
    {
        let run = &self.sequences[sequence];
        let lane = sequence % LANES;
        let time = self.time - 1;
        mark(value_at(self.before, self.literals, run, lane, time, place))
    }

    /// Returns true if a wave's value is written: at the start, and if it has changed.
    pub(crate) fn is_written(&self, sequence: usize, place: usize) -> bool
        requires moment { IsMoment (sequence / 256) self.now }
        requires sequence { sequence < length self.now.sequences.now }
        ensures { result ≡ is_dumped (trace_of self.now) sequence self.now.time place }
    {
        self.time == 0 || self.mark_before(sequence, place) != self.mark(sequence, place)
    }
}
