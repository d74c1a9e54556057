//! Moving latches over gates that arrive within a bound makes no path longer than the bound. Gates
//! outside the set read its members as latches, so no level of theirs rises. A member's copy reads
//! what latches were fed by, and so has at most the member's arrival.

ghost use Rattle.retimed_circuits.specs.MovingLevels.{MovingKeepsLevels};

/// Latches move over a closed set of gates that arrive within a bound. The circuit that this makes
/// has at most as many levels as it had, or as the bound if that is more.
pub fn moving_levels_law()
    ensures { MovingKeepsLevels }
{}
