//! The result of a run.
ghost use Rattle.std.specs.Prelude.{◌≡◌, ◌<◌, length, pos, slice_index, ◌-ℤ◌};

use crate::flow::Flow;
use pulse_parts::residual_at;
use std::marker::Model;

/// The preflow at the end of a run: no node is active, so no more can reach the sink. Excess that
/// can't reach it stays at its nodes, whose labels are the number of nodes.
#[derive(Drop)]
pub struct MaxPreflow {
    pub(crate) flow: Flow,
    pub(crate) pulses: u64,
}

impl Model for MaxPreflow {
    ghost use Rattle.pulse.specs.Values.{RunEnd};

    ghost Value = { RunEnd };

    ghost view = { λ m. record { flow = m.flow; pulses = m.pulses } };
}

impl MaxPreflow {
    /// Returns the number of pulses of the run.
    pub fn pulses(&self) -> u64
        ensures { result ≡ self.now.pulses }
    {
        self.pulses
    }

    /// Returns the flow over an arc.
    pub fn flow(&self, arc: u32) -> i64
        requires arc { arc < length self.now.flow.cells.residuals }
        requires cap { arc < length self.now.flow.caps }
        ensures { result ≡ pos (slice_index self.now.flow.caps arc) -ℤ pos
            (slice_index self.now.flow.cells.residuals arc) }
    {
        self.flow.flow(arc)
    }

    /// Returns the residual of an arc: its capacity less its flow.
    pub fn residual(&self, arc: u32) -> u32
        requires { arc < length self.now.flow.cells.residuals }
        ensures { result ≡ slice_index self.now.flow.cells.residuals arc }
    {
        residual_at(self.flow.parts.as_slice(), arc as usize)
    }

    /// Returns the label of a node.
    pub fn label(&self, v: u32) -> u32
        requires { v < length self.now.flow.labels }
        ensures { result ≡ slice_index self.now.flow.labels v }
    {
        self.flow.label(v)
    }
}
