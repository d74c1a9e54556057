//! Input sequences.
ghost use Rattle.std.specs.Prelude.{◌≡◌, length, Option, option_map, slice_get};

use aig_graph::Sequence;
use std::marker::Model;

/// The choice for the free latches, in their order, and then for each step a digit for each input.
#[derive(Drop)]
pub struct InputSequence {
    pub choice: Sequence<bool>,
    pub steps: Sequence<Sequence<bool>>,
}

/// Input sequences. Contracts see their list.
pub struct Stimulus {
    sequences: Vec<InputSequence>,
}

impl Drop for Stimulus {
    // written out: docs/PROOFS.md, Drops and exits
    fn drop(self) {
        let Stimulus {
            sequences: _sequences,
        } = self;
    }
}

impl Model for Stimulus {
    ghost use Rattle.std.specs.Prelude.{List};
    ghost use Rattle.lane_sim.specs.declared.stimulus.InputSequence.{InputSequence};

    ghost Value = { List InputSequence };

    ghost view = { λ s. s.sequences.items };
}

impl Stimulus {
    /// Returns the stimulus of these sequences, which may be of any widths. Takes no memory.
    pub fn new(sequences: Vec<InputSequence>) -> Stimulus
        ensures { result ≡ sequences.items }
    {
        Stimulus { sequences }
    }

    /// Returns the number of sequences.
    pub fn sequences(&self) -> usize
        ensures { result ≡ length self.now }
    {
        self.sequences.len()
    }

    /// Returns the number of steps of a sequence, or `None` for a number that no sequence has.
    pub fn steps(&self, sequence: usize) -> Option<usize>
        ensures { result ≡ option_map (λ s. length s.steps) (slice_get self.now sequence) }
    {
        match self.sequences.get(sequence) {
            Some(found) => Some(found.steps.len()),
            None => None,
        }
    }

    /// Returns the sequences.
    pub fn as_slice(&self) -> &[InputSequence]
        ensures { result.now ≡ self.now }
    {
        self.sequences.as_slice()
    }
}
