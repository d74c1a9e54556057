//! The units of a flow by gate. They are kept for the next network, which is much like this one. It
//! is that of the next frame, or that of the same frame with more gates frozen.

/// The units along a fan-in: from after the gate down to before it, and from after it up to after
/// the gate. More than 255 count as 255.
#[derive(Clone, Copy)]
pub struct FanInUnits {
    pub down: u8,
    pub up: u8,
}

/// The units through a gate, and along its fan-ins.
#[derive(Clone, Copy)]
pub struct GateUnits {
    pub through: bool,
    pub larger: FanInUnits,
    pub smaller: FanInUnits,
}

impl FanInUnits {
    /// No units.
    const NONE: FanInUnits = FanInUnits { down: 0, up: 0 };
}

impl GateUnits {
    /// No units.
    pub const NONE: GateUnits = GateUnits {
        through: false,
        larger: FanInUnits::NONE,
        smaller: FanInUnits::NONE,
    };

    /// Returns the units of a gate whose fan-ins changed places if `swaps`.
    pub fn swapped_if(self, swaps: bool) -> GateUnits {
        if swaps {
            GateUnits {
                through: self.through,
                larger: self.smaller,
                smaller: self.larger,
            }
        } else {
            self
        }
    }
}
