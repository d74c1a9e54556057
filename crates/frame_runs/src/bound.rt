//! The bound on the length of paths. Moving latches forward makes paths longer: what stood behind a
//! row of latches then stands in front of it.
ghost use Rattle.std.specs.Prelude.{◌≡◌, IfOk};
ghost use Rattle.frame_runs.specs.Bounds.{bound_for, levels_named};

use aig_graph::{Circuit, NoMemory};
use path_levels::levels;
use std::alloc::Global;

/// How many gates a path may have. The longest path of the circuit that was read is never too long.
#[derive(Clone, Copy, Debug, PartialEq, Eq)]
pub enum PathBound {
    /// Any number.
    None,
    /// At most `n` gates, for `Levels(n)`, or as many as the longest path of the circuit that was
    /// read if that has more.
    Levels(u32),
    /// At most as many gates as the longest path of the circuit that was read.
    NoLonger,
}

impl PathBound {
    /// Returns how many gates a path may have in any circuit: 0 for [`PathBound::NoLonger`], and
    /// `None` without a bound.
    pub fn levels(self) -> Option<u32>
        ensures { result ≡ levels_named self }
    {
        match self {
            PathBound::None => None,
            PathBound::Levels(most) => Some(most),
            PathBound::NoLonger => Some(0),
        }
    }

    /// Returns the bound for a circuit as it was read. Its levels are counted only if there is a
    /// bound.
    ///
    /// # Errors
    ///
    /// `NoMemory` if memory is refused for the levels.
    pub fn for_circuit(self, alloc: Global, circuit: &Circuit) -> Result<Option<u32>, NoMemory>
        ensures { IfOk result (λ bound. bound ≡ bound_for self circuit.now) }
    {
        match self.levels() {
            None => Ok(None),
            Some(most) => Ok(Some(most.max(levels(alloc, circuit)?))),
        }
    }
}
