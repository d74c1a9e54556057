//! The region that units flow over: latches and gates of a frame, or of some components of its
//! network. Each has its place from the first latch on.

use aig_graph::{Gate, Latch, Lit, Reset};
use unit_flows::Frame;

/// Returns a number of latches or gates in 32 bits, in which it fits: a circuit has fewer than
/// 2^28.
pub fn narrow(number: usize) -> u32 {
    number.min(u32::MAX as usize) as u32
}

/// The latches and gates of a region, by place: the latches come first.
#[derive(Clone, Copy)]
pub struct Region<'a> {
    /// The variable of the first latch.
    pub first: u32,
    pub latches: &'a [Latch],
    pub gates: &'a [Gate],
    /// By place, true if a passable gate is there.
    pub passes: &'a [bool],
    /// By place, true if it is held or read from outside of the passable gates: an arc leads from
    /// after it to the sink.
    pub leaving: &'a [bool],
}

impl<'a> Region<'a> {
    /// Returns the region of all latches and gates of a frame.
    pub fn of(frame: &'a Frame) -> Region<'a> {
        let aig = frame.circuit.aig();
        Region {
            first: aig.first_latch(),
            latches: aig.latches(),
            gates: aig.gates(),
            passes: frame.pass.marks(),
            leaving: frame.leaving.as_slice(),
        }
    }

    /// Returns the number of latches and gates.
    pub fn places(&self) -> usize {
        self.latches.len().saturating_add(self.gates.len())
    }

    /// Returns the place of a literal's variable. That of an input is past all places.
    pub fn place(&self, lit: Lit) -> u32 {
        lit.var().wrapping_sub(self.first)
    }

    /// Returns the number of the gate at `place`, past all gates if there is none.
    pub fn gate_number(&self, place: usize) -> usize {
        place.wrapping_sub(self.latches.len())
    }

    /// Returns the gate at `place`, if there is one.
    pub fn gate(&self, place: usize) -> Option<&'a Gate> {
        self.gates.get(self.gate_number(place))
    }

    /// Returns true if a known latch is at `place`.
    pub fn is_known_latch(&self, place: usize) -> bool {
        place < self.latches.len() && self.latches[place].reset != Reset::Free
    }

    /// Returns true if a passable gate is at `place`.
    pub fn is_passable(&self, place: usize) -> bool {
        place < self.passes.len() && self.passes[place]
    }

    /// Returns true if units go to the sink from after `place`.
    pub fn leaves(&self, place: usize) -> bool {
        place < self.leaving.len() && self.leaving[place]
    }

    /// Returns true if units at `place` stay in the region: it has the place, and none go to the
    /// sink from there.
    pub(crate) fn is_inside(&self, place: usize) -> bool {
        place < self.leaving.len() && !self.leaving[place]
    }
}
