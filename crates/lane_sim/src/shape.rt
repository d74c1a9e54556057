//! Whether two circuits may be compared place by place.
ghost use Rattle.std.specs.Prelude.{◌↔◌, IsTrue};
ghost use Rattle.lane_sim.specs.Differences.{HaveKeptShape, HaveSameShape};

use aig_graph::Circuit;

/// Returns true if the circuits have equal numbers of inputs, free latches and properties of each
/// kind, and justice properties of equal sizes.
pub(crate) fn have_same_shape(a: &Circuit, b: &Circuit) -> bool
    ensures { IsTrue result ↔ HaveSameShape a.now b.now }
{
    aig_graph::have_same_shape(a, b) && b.aig().free_latches() == a.aig().free_latches()
}

/// Compares as [`have_same_shape`] does, if the second circuit has these free latches of the first
/// one's.
pub(crate) fn have_kept_shape(a: &Circuit, b: &Circuit, kept: &[u32]) -> bool
    ensures { IsTrue result ↔ HaveKeptShape kept.now a.now b.now }
{
    aig_graph::have_same_shape(a, b) && kept.len() == b.aig().free_latches() as usize
}
