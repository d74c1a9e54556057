//! The two phases of a pulse, by the workers of a crew or by fewer.
ghost use Rattle.std.specs.Prelude.{◌≡◌, ◌<◌, OnErr, OnOk, false, true};
ghost use Rattle.pulse.specs.Conditions.{ArePushesOf, IsFlowOf, NoneDelivered, active_count};
ghost use Rattle.pulse.specs.Phases.{AfterDelivery, AfterRead, AfterRefusal, IsReadPhase};

use crate::crew::Crew;
use crate::error::PulseError;
use crate::flow::Flow;
use crate::gate::PhaseGate;
use crate::pushes::Pushes;
use crate::sharing::{Phase, Share};
use crate::workers::{deliver_all, read_all};
use frame_net::Net;
use std::alloc::Global;
use std::thread::Threads;

/// Runs the read phase of a pulse: each node writes its row of pushes. Only the rows of active
/// nodes are walked (`Pushes::walked`).
///
/// If the pushes are in parts for another number of workers, they are first parted anew. A phase
/// over a spent flow or spent pushes is refused. After a refusal, for either reason, the pushes are
/// spent, and the flow is as it was.
pub fn read_phase<G: PhaseGate>(
    rt: &(impl Threads + Sync),
    alloc: Global,
    net: &Net,
    flow: &Flow,
    pushes: &mut Pushes,
    crew: &Crew<G>,
) -> Result<(), PulseError>
    requires flow { IsFlowOf net.now flow.now }
    requires pushes { ArePushesOf net.now pushes.old }
    requires none { flow.now.spent ≡ false → pushes.old.spent ≡ false
        → NoneDelivered net.now flow.now }
    ensures fits { ArePushesOf net.now pushes.new }
    ensures ok { OnOk result (AfterRead net.now flow.now pushes.old pushes.new) }
    ensures walked { OnOk result (pushes.new.walked ≡ active_count net.now flow.now) }
    ensures err { OnErr result (pushes.new.spent ≡ true) }
{
    let share = Share::among(crew.workers());
    read_by(rt, alloc, net, flow, pushes, share, crew.gate())
}

/// Runs the delivery phase of a pulse: each node writes its row of flow, its excess and its new
/// label; then these become the labels. If the last delivery phase's lists still hold, only nodes
/// that are active, push, or are pushed to are visited.
///
/// If the flow is in parts for another number of workers, it is first parted anew. A phase over a
/// spent flow or spent pushes is refused. After a refusal, for either reason, the flow is spent,
/// with the labels and the capacities that it had.
pub fn deliver_phase<G: PhaseGate>(
    rt: &(impl Threads + Sync),
    alloc: Global,
    net: &Net,
    flow: &mut Flow,
    pushes: &Pushes,
    crew: &Crew<G>,
) -> Result<(), PulseError>
    requires flow { IsFlowOf net.now flow.old }
    requires pushes { ArePushesOf net.now pushes.now }
    requires read { flow.old.spent ≡ false → pushes.now.spent ≡ false
        → IsReadPhase net.now flow.old pushes.now }
    ensures fits { IsFlowOf net.now flow.new }
    ensures ok { OnOk result (AfterDelivery net.now flow.old flow.new pushes.now) }
    ensures err { OnErr result (AfterRefusal flow.old flow.new) }
{
    let share = Share::among(crew.workers());
    deliver_by(rt, alloc, net, flow, pushes, share, crew.gate())
}

/// Runs the read phase, shared out as `share` says.
pub(crate) fn read_by<R: Threads + Sync, G: PhaseGate>(
    rt: &R,
    alloc: Global,
    net: &Net,
    flow: &Flow,
    pushes: &mut Pushes,
    share: Share,
    gate: &G,
) -> Result<(), PulseError>
    requires some { 0 < share.parts }
    requires flow { IsFlowOf net.now flow.now }
    requires pushes { ArePushesOf net.now pushes.old }
    requires none { flow.now.spent ≡ false → pushes.old.spent ≡ false
        → NoneDelivered net.now flow.now }
    ensures fits { ArePushesOf net.now pushes.new }
    ensures ok { OnOk result (AfterRead net.now flow.now pushes.old pushes.new) }
    ensures walked { OnOk result (pushes.new.walked ≡ active_count net.now flow.now) }
    ensures err { OnErr result (pushes.new.spent ≡ true) }
{
    if flow.spent || pushes.spent {
        pushes.spent = true;
        return Err(PulseError::NoMemory);
    }
    net.known();
    let labels = flow.labels.as_slice();
    let parts = flow.parts.as_slice();
    let phase = Phase {
        share,
        gate,
        number: u64::from(flow.phase),
        listed: flow.listed,
    };
    match read_all(rt, alloc, net, labels, parts, &mut pushes.parts, &phase) {
        Ok(()) => Ok(()),
        Err(_) => {
            pushes.spent = true;
            Err(PulseError::NoMemory)
        }
    }
}

/// Runs the delivery phase, shared out as `share` says.
pub(crate) fn deliver_by<R: Threads + Sync, G: PhaseGate>(
    rt: &R,
    alloc: Global,
    net: &Net,
    flow: &mut Flow,
    pushes: &Pushes,
    share: Share,
    gate: &G,
) -> Result<(), PulseError>
    requires some { 0 < share.parts }
    requires flow { IsFlowOf net.now flow.old }
    requires pushes { ArePushesOf net.now pushes.now }
    requires read { flow.old.spent ≡ false → pushes.now.spent ≡ false
        → IsReadPhase net.now flow.old pushes.now }
    ensures fits { IsFlowOf net.now flow.new }
    ensures ok { OnOk result (AfterDelivery net.now flow.old flow.new pushes.now) }
    ensures err { OnErr result (AfterRefusal flow.old flow.new) }
{
    if flow.spent || pushes.spent {
        flow.spent = true;
        return Err(PulseError::NoMemory);
    }
    net.known();
    let rows = pushes.parts.as_slice();
    let number = u64::from(flow.phase) + 1;
    let listed = flow.listed;
    let phase = Phase {
        share,
        gate,
        number,
        listed,
    };
    let labels = flow.labels.as_mut_slice();
    match deliver_all(rt, alloc, net, labels, rows, &mut flow.parts, &phase) {
        Ok(()) => {
            flow.listed = true;
            flow.phase = flow.phase.wrapping_add(2);
            Ok(())
        }
        Err(_) => {
            flow.spent = true;
            flow.listed = false;
            Err(PulseError::NoMemory)
        }
    }
}
