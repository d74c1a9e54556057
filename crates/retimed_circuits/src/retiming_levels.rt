//! A circuit that is retimed under a bound has no path longer than the bound, but for those that it
//! had. The least set of all gates is taken if its move was seen to keep the bound. Any other set
//! is of gates that arrive within it.

ghost use Rattle.retimed_circuits.specs.RetimingLevels.{RetimingKeepsLevels};

/// The levels of a retimed circuit are at most the bound or the levels of the circuit that it was
/// made of, whichever is greater. This holds over all frames, and after a merging of latches.
pub fn retiming_levels_law()
    ensures { RetimingKeepsLevels }
{}
