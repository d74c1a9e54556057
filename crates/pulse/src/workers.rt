//! A phase over the parts of all workers: by `map_vec` if they are handed out, else on the calling
//! thread.
//!
//! Each worker gets its part by value and returns it, in worker order; all else is lent to all
//! workers. A refusal drops the parts.
ghost use Rattle.std.specs.Prelude.{◌≡◌, ℕ, ◌<◌, ◌≤◌, ◌⊎◌, IfOk, OnErr, OnOk, List, length, true};
ghost use Rattle.frame_net.specs.FlowNet.{node_count};
ghost use Rattle.pulse_parts.specs.Parts.{AreFlowParts, ArePushParts, Agree, FlowPartFits, IsSound, LabelsFit, PushPartFits, cells_of, pairs, rows_walked, values_of};
ghost use Rattle.pulse_parts.specs.Reading.{WholeRead, WholesRead, active_below};
ghost use Rattle.pulse_parts.specs.Delivering.{PartSafe, PartsSafe};
ghost use Rattle.pulse_parts.specs.Listing.{ListActive, ListsActive};
ghost use Rattle.pulse_parts.specs.Visiting.{WholeDelivered, WholesDelivered};
ghost use Rattle.pulse_parts.specs.Runs.{ArePulsed, AreRead};
ghost use Rattle.pulse_parts.specs.Start.{AreFlowShares, ArePushShares, FlowNumbered, PushesNumbered};

use crate::gate::PhaseGate;
use crate::sharing::Phase;
use frame_net::Net;
use pulse_parts::{
    FlowPart, PushPart, deliver_every, deliver_whole, parted_anew, push_parts, read_every,
    read_whole, turn,
};
use std::alloc::{AllocError, Global};
use std::thread::Threads;
use std::{mem, thread};

/// Parts the pushes for `workers` workers, unless they have that number of parts.
fn part_pushes(
    alloc: Global,
    net: &Net,
    parts: &mut Vec<PushPart>,
    workers: u32,
) -> Result<(), AllocError>
    requires some { 0 < workers }
    requires parts { ArePushParts net.now 0 parts.old.items }
    ensures parts { OnOk result (ArePushParts net.now 0 parts.new.items) }
    ensures shares { (parts.new.items ≡ parts.old.items)
        ⊎ ArePushShares (node_count net.now) workers parts.new.items }
{
    if parts.len() != workers as usize {
        *parts = push_parts(alloc, net, workers)?;
    }
    Ok(())
}

/// Parts the flow for `workers` workers, unless it has that number of parts. If its parts list the
/// active nodes, the new ones do.
pub(crate) fn part_flow(
    alloc: Global,
    net: &Net,
    labels: &[u32],
    parts: &mut Vec<FlowPart>,
    workers: u32,
) -> Result<(), AllocError>
    requires some { 0 < workers }
    requires labels { LabelsFit net.now labels.now }
    requires parts { AreFlowParts net.now 0 parts.old.items }
    ensures parts { OnOk result (AreFlowParts net.now 0 parts.new.items) }
    ensures shares { (parts.new.items ≡ parts.old.items)
        ⊎ AreFlowShares (node_count net.now) workers parts.new.items }
    ensures agree { OnOk result (Agree (node_count net.now)
        (pairs net.now (cells_of parts.old.items) labels.now)
        (pairs net.now (cells_of parts.new.items) labels.now)) }
    ensures lists { ListActive (node_count net.now) labels.now parts.old.items
        → ListActive (node_count net.now) labels.now parts.new.items }
{
    net.known();
    if parts.len() != workers as usize {
        *parts = parted_anew(alloc, net, labels, parts.as_slice(), workers)?;
    }
    Ok(())
}

/// Reads each part by a worker of its own.
fn read_by_crew<R: Threads + Sync, G: PhaseGate>(
    rt: &R,
    net: &Net,
    labels: &[u32],
    flow: &[FlowPart],
    parts: Vec<PushPart>,
    phase: &Phase<G>,
) -> Result<Vec<PushPart>, AllocError>
    requires labels { LabelsFit net.now labels.now }
    requires flow { AreFlowParts net.now 0 flow.now }
    requires parts { ArePushParts net.now 0 parts.items }
    requires listed { phase.now.listed ≡ true
        → ListActive (node_count net.now) labels.now flow.now }
    ensures len { IfOk result (λ done. length done.items ≡ length parts.items) }
    ensures each { IfOk result (λ done. WholesRead net.now labels.now
        (cells_of flow.now) parts.items done.items) }
{
    let (gate, number, listed) = (phase.gate, phase.number, phase.listed);
    let work = |part: PushPart| -> PushPart
        requires labels { LabelsFit net.now labels.now }
        requires flow { AreFlowParts net.now 0 flow.now }
        requires part { PushPartFits net.now part }
        requires listed { listed ≡ true → ListActive (node_count net.now) labels.now flow.now }
        ensures { WholeRead net.entry.now labels.entry.now (cells_of flow.entry.now) part result }
    {
        let mut part = part;
        let worker = part.worker;
        gate.pass(number, worker);
        read_whole(net, labels, flow, &mut part, listed);
        gate.leave(number, worker);
        part
    };
    thread::map_vec(rt, parts, &work)
}

/// Delivers each part by a worker of its own.
fn deliver_by_crew<R: Threads + Sync, G: PhaseGate>(
    rt: &R,
    net: &Net,
    labels: &[u32],
    pushes: &[PushPart],
    parts: Vec<FlowPart>,
    phase: &Phase<G>,
) -> Result<Vec<FlowPart>, AllocError>
    requires pushes { ArePushParts net.now 0 pushes.now }
    requires labels { LabelsFit net.now labels.now }
    requires parts { AreFlowParts net.now 0 parts.items }
    requires safe { PartsSafe net.now (values_of pushes.now) 0 (node_count net.now) parts.items }
    requires lists { phase.now.listed ≡ true
        → ListActive (node_count net.now) labels.now parts.items }
    ensures len { IfOk result (λ done. length done.items ≡ length parts.items) }
    ensures each { IfOk result (λ done. WholesDelivered net.now labels.now
        (values_of pushes.now) parts.items done.items) }
{
    let (gate, number, listed) = (phase.gate, phase.number, phase.listed);
    let work = |part: FlowPart| -> FlowPart
        requires pushes { ArePushParts net.now 0 pushes.now }
        requires labels { LabelsFit net.now labels.now }
        requires part { FlowPartFits net.now part }
        requires safe { PartSafe net.now (values_of pushes.now) 0 (node_count net.now) part }
        requires lists { listed ≡ true → ListsActive (node_count net.now) labels.now part }
        ensures { WholeDelivered net.entry.now labels.entry.now
            (values_of pushes.entry.now) part result }
    {
        let mut part = part;
        let worker = part.worker;
        gate.pass(number, worker);
        deliver_whole(net, labels, pushes, &mut part, listed);
        gate.leave(number, worker);
        part
    };
    thread::map_vec(rt, parts, &work)
}

/// Reads every node, shared out as the phase says. After a refusal the parts may be gone.
pub(crate) fn read_all<R: Threads + Sync, G: PhaseGate>(
    rt: &R,
    alloc: Global,
    net: &Net,
    labels: &[u32],
    flow: &[FlowPart],
    parts: &mut Vec<PushPart>,
    phase: &Phase<G>,
) -> Result<(), AllocError>
    requires some { 0 < phase.now.share.parts }
    requires labels { LabelsFit net.now labels.now }
    requires flow { AreFlowParts net.now 0 flow.now }
    requires parts { ArePushParts net.now 0 parts.old.items }
    requires listed { phase.now.listed ≡ true
        → ListActive (node_count net.now) labels.now flow.now }
    ensures read { OnOk result (AreRead net.now labels.now flow.now parts.new.items) }
    ensures walked { OnOk result (rows_walked parts.new.items
        ≡ active_below net.now labels.now (cells_of flow.now) (node_count net.now)) }
    ensures numbered { OnOk result (PushesNumbered parts.old.items
        → PushesNumbered parts.new.items) }
{
    net.known();
    part_pushes(alloc, net, parts, phase.share.parts)?;
    if !phase.share.handed {
        phase.gate.pass(phase.number, 0);
        read_every(net, labels, flow, parts.as_mut_slice(), phase.listed);
        phase.gate.leave(phase.number, 0);
        return Ok(());
    }
    let taken = mem::replace(parts, Vec::new(alloc));
    let done = read_by_crew(rt, net, labels, flow, taken, phase)?;
    *parts = done;
    Ok(())
}

/// Delivers every node, by a worker for each part if they are handed out. After a refusal the parts
/// may be gone.
fn deliver_parts<R: Threads + Sync, G: PhaseGate>(
    rt: &R,
    alloc: Global,
    net: &Net,
    labels: &[u32],
    pushes: &[PushPart],
    flow: &mut Vec<FlowPart>,
    phase: &Phase<G>,
) -> Result<(), AllocError>
    requires flow { AreFlowParts net.now 0 flow.old.items }
    requires labels { LabelsFit net.now labels.now }
    requires sound { IsSound net.now (pairs net.now (cells_of flow.old.items) labels.now) }
    requires read { AreRead net.now labels.now flow.old.items pushes.now }
    requires lists { phase.now.listed ≡ true
        → ListActive (node_count net.now) labels.now flow.old.items }
    ensures len { OnOk result (length flow.new.items ≡ length flow.old.items) }
    ensures each { OnOk result (WholesDelivered net.now labels.now
        (values_of pushes.now) flow.old.items flow.new.items) }
{
    net.known();
    if !phase.share.handed {
        phase.gate.pass(phase.number, 0);
        deliver_every(net, labels, pushes, flow.as_mut_slice(), phase.listed);
        phase.gate.leave(phase.number, 0);
        return Ok(());
    }
    let parts = mem::replace(flow, Vec::new(alloc));
    let done = deliver_by_crew(rt, net, labels, pushes, parts, phase)?;
    *flow = done;
    Ok(())
}

/// Delivers every node, shared out as the phase says, and replaces the labels by the new ones.
/// Afterwards the parts' lists are of the flow and its labels. After a refusal the parts may be
/// gone.
pub(crate) fn deliver_all<R: Threads + Sync, G: PhaseGate>(
    rt: &R,
    alloc: Global,
    net: &Net,
    labels: &mut [u32],
    pushes: &[PushPart],
    flow: &mut Vec<FlowPart>,
    phase: &Phase<G>,
) -> Result<(), AllocError>
    requires some { 0 < phase.now.share.parts }
    requires flow { AreFlowParts net.now 0 flow.old.items }
    requires labels { LabelsFit net.now labels.old }
    requires sound { IsSound net.now (pairs net.now (cells_of flow.old.items) labels.old) }
    requires read { AreRead net.now labels.old flow.old.items pushes.now }
    requires lists { phase.now.listed ≡ true
        → ListActive (node_count net.now) labels.old flow.old.items }
    ensures ok { OnOk result (ArePulsed net.now labels.old labels.new flow.old.items
        flow.new.items) }
    ensures lists { OnOk result (ListActive (length labels.new) labels.new flow.new.items) }
    ensures numbered { OnOk result (FlowNumbered flow.old.items → FlowNumbered flow.new.items) }
    ensures err { OnErr result (labels.new ≡ labels.old) }
{
    net.known();
    part_flow(alloc, net, labels, flow, phase.share.parts)?;
    deliver_parts(rt, alloc, net, labels, pushes, flow, phase)?;
    turn(labels, flow.as_slice(), true);
    Ok(())
}
