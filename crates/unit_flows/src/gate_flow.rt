//! The flow of units at a gate.

/// The units of a flow at a gate. For each fan-in, `up` is true if one came from its output. One
/// may have gone through the gate. `down` is the number that went on to before a fan-in that is a
/// gate, at most [`GateFlow::MOST_DOWN`]. The first fan-in is the one of the smaller variable.
#[derive(Clone, Copy, PartialEq, Eq)]
pub struct GateFlow {
    pub first_up: bool,
    pub second_up: bool,
    pub through: bool,
    pub first_down: u8,
    pub second_down: u8,
}

impl GateFlow {
    /// The most units that a flow can send on from before a gate to before a fan-in. An arc of the
    /// network carries any number. A frame whose least set needs more is left to the network.
    pub const MOST_DOWN: u32 = u8::MAX as u32;

    /// Returns the flow in which no unit comes or goes.
    pub fn none() -> GateFlow {
        GateFlow {
            first_up: false,
            second_up: false,
            through: false,
            first_down: 0,
            second_down: 0,
        }
    }

    /// Returns true if nothing came to the gate and nothing went on from it.
    pub fn is_none(&self) -> bool {
        !(self.first_up | self.second_up | self.through)
            & (self.first_down == 0)
            & (self.second_down == 0)
    }

    /// Returns true if a unit came from the output of the second fan-in, if `second`, else of the
    /// first.
    pub fn up(&self, second: bool) -> bool {
        if second {
            self.second_up
        } else {
            self.first_up
        }
    }

    /// Returns the units that went on to before the second fan-in, if `second`, else to before the
    /// first.
    pub fn down(&self, second: bool) -> u32 {
        if second {
            u32::from(self.second_down)
        } else {
            u32::from(self.first_down)
        }
    }

    /// Returns true if more units could go on to before the second fan-in, if `second`, else to
    /// before the first.
    pub fn has_room(&self, second: bool) -> bool {
        self.down(second) < GateFlow::MOST_DOWN
    }

    /// Notes that a unit came from the output of the second fan-in, if `second`, else of the first.
    pub fn note_up(&mut self, second: bool) {
        if second {
            self.second_up = true;
        } else {
            self.first_up = true;
        }
    }

    /// Notes that none came from the output of the second fan-in, if `second`, else of the first.
    pub fn clear_up(&mut self, second: bool) {
        if second {
            self.second_up = false;
        } else {
            self.first_up = false;
        }
    }

    /// Notes that `units` units went on to before the second fan-in, if `second`, else to before
    /// the first. More than [`GateFlow::MOST_DOWN`] are noted as
    /// that number.
    pub fn note_down(&mut self, second: bool, units: u32) {
        let units = units.min(GateFlow::MOST_DOWN) as u8;
        if second {
            self.second_down = units;
        } else {
            self.first_down = units;
        }
    }
}
