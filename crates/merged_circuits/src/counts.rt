//! How many latches of a circuit are merged, by the lines that say so.
ghost use Rattle.std.specs.Prelude.{◌≡◌};
ghost use Rattle.merged_circuits.specs.Counts.{counts_of, is_constant};

use certificates::MergedLatch;

/// How many latches of a circuit are merged.
#[derive(Clone, Copy, Debug, PartialEq, Eq)]
pub struct MergeCounts {
    /// How many read as an earlier latch, or as a constant.
    pub merged: u64,
    /// How many of these read as a constant: they never leave their resets.
    pub constant: u64,
}

fn is_constant(line: &MergedLatch) -> bool
    ensures { result ≡ is_constant line.now }
{
    line.reads.var() == 0
}

/// Counts the latches that read as another, and those of them that read as a constant.
pub fn counts_of(lines: &[MergedLatch]) -> MergeCounts
    ensures { result ≡ counts_of lines.now }
{
    let constant = lines.iter().filter(|line| is_constant(line)).count();
    MergeCounts {
        merged: lines.len() as u64,
        constant: constant as u64,
    }
}
