//! The circuits that are compared, among shared gates. They are a step of the first circuit, the
//! map after it, and a step of the second circuit. That step is from what the map gives before it.
ghost use Rattle.std.specs.Prelude.{◌≡◌, [], length, IfOk, OnOk};
ghost use Rattle.aig_graph.specs.Graph.{first_gate, variables_end};
ghost use Rattle.aig_graph.specs.Gates.{Grows};
ghost use Rattle.gate_sharing.specs.Equal.{Equal, StaysRight};
ghost use Rattle.gate_sharing.specs.Copies.{AreShared, copied_end};
ghost use Rattle.map_checks.specs.Images.{IsFaithfulCopy, in_first, in_map, in_map_later, in_second_mapped};

use crate::leaves::{latch_leaves, nexts, picked};
use aig_graph::{Aig, Circuit};
use gate_sharing::{Copied, Equalities, SharedGates, SharingError, copy};
use std::alloc::Global;

/// Adds the gates of the first circuit.
pub(crate) fn first_side(
    alloc: Global,
    shared: &mut SharedGates,
    equal: &mut Equalities,
    first: &Circuit,
) -> Result<Copied, SharingError>
    requires after { shared.old.first ≡ first_gate first.now.aig }
    ensures grows { OnOk result (Grows shared.old shared.new) }
    ensures right { OnOk result (StaysRight equal.old equal.new) }
    ensures view { IfOk result (IsFaithfulCopy shared.new equal.old first.now.aig first.now.aig
        (in_first first.now)) }
{
    let leaves = latch_leaves(alloc, equal, first.aig(), first.aig().first_latch())?;
    copy(shared, equal, first.aig(), leaves)
}

/// Adds the map, over the next literals of the first circuit.
pub(crate) fn later_side(
    alloc: Global,
    shared: &mut SharedGates,
    equal: &mut Equalities,
    before: &Copied,
    first: &Circuit,
    map: &Circuit,
) -> Result<Copied, SharingError>
    requires inputs { map.now.aig.inputs ≡ length first.now.aig.latches }
    requires latches { map.now.aig.latches ≡ [] }
    requires after { shared.old.first ≡ first_gate first.now.aig }
    requires long { copied_end before.now ≡ variables_end first.now.aig }
    requires within { AreShared shared.old before.now }
    ensures grows { OnOk result (Grows shared.old shared.new) }
    ensures right { OnOk result (StaysRight equal.old equal.new) }
    ensures view { IfOk result (λ copied. (e : Equal) → StaysRight e equal.old
        → IsFaithfulCopy shared.old e first.now.aig first.now.aig (in_first first.now) before.now
        → IsFaithfulCopy shared.new e first.now.aig map.now.aig
        (in_map_later first.now map.now) copied) }
{
    let nexts = nexts(alloc, first.aig())?;
    let leaves = picked(alloc, 1, before, nexts.as_slice())?;
    let copied = copy(shared, equal, map.aig(), leaves)?;
    Ok(copied)
}

/// Adds the gates of the second circuit, over the outputs of the map.
pub(crate) fn second_side(
    alloc: Global,
    shared: &mut SharedGates,
    equal: &mut Equalities,
    image: &Copied,
    first: &Aig,
    second: &Circuit,
    map: &Circuit,
) -> Result<Copied, SharingError>
    requires widths { length map.now.props.outputs ≡ length second.now.aig.latches }
    requires inputs { second.now.aig.inputs ≡ first.now.inputs }
    requires after { shared.old.first ≡ first_gate first.now }
    requires long { copied_end image.now ≡ variables_end map.now.aig }
    requires within { AreShared shared.old image.now }
    ensures grows { OnOk result (Grows shared.old shared.new) }
    ensures right { OnOk result (StaysRight equal.old equal.new) }
    ensures view { IfOk result (λ copied. (e : Equal) → StaysRight e equal.old
        → IsFaithfulCopy shared.old e first.now map.now.aig (in_map map.now) image.now
        → IsFaithfulCopy shared.new e first.now second.now.aig
        (in_second_mapped second.now map.now) copied) }
{
    let _first = first;
    map.known();
    let outputs = map.props().outputs.as_slice();
    let leaves = picked(alloc, second.aig().first_latch(), image, outputs)?;
    let copied = copy(shared, equal, second.aig(), leaves)?;
    Ok(copied)
}
