//! The places of a gate's fan-ins.

use aig_graph::Gate;

/// The places of a gate's two fan-ins, that of the smaller variable first.
#[derive(Clone, Copy)]
pub(crate) struct FanIns {
    pub smaller: u32,
    pub larger: u32,
}

impl FanIns {
    /// Stands for the fan-ins of no gate.
    pub const NONE: FanIns = FanIns {
        smaller: u32::MAX,
        larger: u32::MAX,
    };

    /// Returns the fan-ins of a gate, if places begin at the variable `first`.
    pub fn of(gate: &Gate, first: u32) -> FanIns {
        FanIns {
            smaller: gate.rhs1.var().wrapping_sub(first),
            larger: gate.rhs0.var().wrapping_sub(first),
        }
    }

    /// Returns the place of the second fan-in if `second`, else of the first.
    pub fn at(&self, second: bool) -> u32 {
        if second { self.larger } else { self.smaller }
    }

    /// Returns true if the gate, which reads `place`, does so by its second fan-in alone.
    pub fn is_second(&self, place: u32) -> bool {
        self.smaller != place
    }
}
