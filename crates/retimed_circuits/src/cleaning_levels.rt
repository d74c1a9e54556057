//! Cleaning and merging latches raise no level. The substitute of a gate is the constant, one of
//! its fan-ins or a gate of its fan-ins, and all latches have level 0. So a substitute has at most
//! the level of its literal, and the circuit is no deeper.

ghost use Rattle.retimed_circuits.specs.CleaningLevels.{CleaningKeepsLevels, MergingKeepsLevels};

/// Neither cleaning nor merging latches makes a path longer.
pub fn cleaning_levels_law()
    ensures cleaning { CleaningKeepsLevels }
    ensures merging { MergingKeepsLevels }
{}
