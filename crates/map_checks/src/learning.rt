//! What the constraints of a map say, taken as equalities of shared literals. A constraint speaks
//! of functions of the latches, so the map is copied first. What is learnt may make more of its
//! gates one, and so say more.
ghost use Rattle.std.specs.Prelude.{◌≡◌, [], length, IfOk, OnOk};
ghost use Rattle.aig_graph.specs.Graph.{first_gate, variables_end};
ghost use Rattle.aig_graph.specs.Gates.{Grows};
ghost use Rattle.gate_sharing.specs.Equal.{StaysRight};
ghost use Rattle.gate_sharing.specs.Copies.{copied_end};
ghost use Rattle.map_checks.specs.Images.{Assumes, IsFaithfulCopy, Learns, in_map};

use crate::facts::fact;
use crate::leaves::latch_leaves;
use aig_graph::{Aig, Circuit, NoMemory};
use gate_sharing::{Copied, Equalities, SharedGates, SharingError, copy};
use std::alloc::Global;

/// The number of times that the constraints are taken, if each time says something new. In the maps
/// of a retiming the second time doesn't.
const ROUNDS: u32 = 4;

/// Returns the map over the latches of a circuit.
pub(crate) fn image(
    alloc: Global,
    shared: &mut SharedGates,
    equal: &mut Equalities,
    first: &Aig,
    map: &Circuit,
) -> Result<Copied, SharingError>
    requires inputs { map.now.aig.inputs ≡ length first.now.latches }
    requires latches { map.now.aig.latches ≡ [] }
    requires after { shared.old.first ≡ first_gate first.now }
    ensures grows { OnOk result (Grows shared.old shared.new) }
    ensures right { OnOk result (StaysRight equal.old equal.new) }
    ensures view { IfOk result (IsFaithfulCopy shared.new equal.old first.now map.now.aig
        (in_map map.now)) }
{
    let leaves = latch_leaves(alloc, equal, first, 1)?;
    copy(shared, equal, map.aig(), leaves)
}

/// Takes what the constraints say of a copy of the map. Whether it is new.
fn assume_constraints(
    equal: &mut Equalities,
    map: &Circuit,
    image: &Copied,
) -> Result<bool, NoMemory>
    requires { copied_end image.now ≡ variables_end map.now.aig }
    ensures { OnOk result (Assumes map.now image.now equal.old equal.new) }
{
    let mut is_new = false;
    for constraint in map.props().constraints.as_slice() {
        let (a, b) = fact(map.aig(), *constraint);
        is_new |= equal.assume(image.literal(a), image.literal(b))?;
    }
    Ok(is_new)
}

/// Copies the map, and takes what its constraints say. Whether it is new.
fn learn(
    alloc: Global,
    shared: &mut SharedGates,
    equal: &mut Equalities,
    first: &Aig,
    map: &Circuit,
) -> Result<bool, SharingError>
    requires inputs { map.now.aig.inputs ≡ length first.now.latches }
    requires latches { map.now.aig.latches ≡ [] }
    requires after { shared.old.first ≡ first_gate first.now }
    ensures grows { OnOk result (Grows shared.old shared.new) }
    ensures learns { OnOk result (Learns shared.new first.now map.now equal.old equal.new) }
{
    map.known();
    let image = image(alloc, shared, equal, first, map)?;
    let is_new = assume_constraints(equal, map, &image)?;
    Ok(is_new)
}

/// Takes what the constraints of a map say, until they say nothing new.
pub(crate) fn learn_all(
    alloc: Global,
    shared: &mut SharedGates,
    equal: &mut Equalities,
    first: &Aig,
    map: &Circuit,
) -> Result<(), SharingError>
    requires inputs { map.now.aig.inputs ≡ length first.now.latches }
    requires latches { map.now.aig.latches ≡ [] }
    requires after { shared.old.first ≡ first_gate first.now }
    ensures grows { OnOk result (Grows shared.old shared.new) }
    ensures learns { OnOk result (Learns shared.new first.now map.now equal.old equal.new) }
{
    if map.props().constraints.is_empty() {
        return Ok(());
    }
    for _ in 0..ROUNDS {
        if !learn(alloc, shared, equal, first, map)? {
            break;
        }
    }
    Ok(())
}
