//! The chosen least set of a circuit, found by a flow of units or else by the circuit's network.
//!
//! If a flow of units shows the set, the ways of its units are the routes of a certificate.
ghost use Rattle.std.specs.Prelude.{IfOk, IfSome, MatchOption, ◌≡◌};
ghost use Rattle.aig_graph.specs.Closed.{IsClosedSet};
ghost use Rattle.chosen_cuts.specs.Certified.{AddsOne, AddsNone};
ghost use Rattle.aig_graph.specs.Chosen.{IsChosen};

use crate::records::Records;
use aig_graph::{Choice, Circuit, ClosedSet, Keep, NoMemory};
use cut_cert::{certificate_of, chosen_of_network, shown_by_network};
use pulse::{Crew, PhaseGate};
use std::alloc::Global;
use std::thread::Threads;
use unit_components::{Sizes, chosen_by_sizes};
use unit_flows::Frame;
use unit_routes::certificate_by_units;

/// Returns the set of a frame, after adding its certificate by the routes of the records' units if
/// certificates are wanted.
///
/// Returns `None` and changes nothing if these routes don't show the set.
fn certified(
    alloc: Global,
    frame: &Frame,
    set: ClosedSet,
    records: &mut Records,
) -> Result<Option<ClosedSet>, NoMemory>
    requires { IsClosedSet frame.now.circuit.now.aig frame.now.keep.now set }
    ensures set { IfOk result (λ shown. IfSome shown (λ same. same ≡ set)) }
    ensures certificate { IfOk result (λ shown. MatchOption shown (AddsNone records.old records.new)
        (AddsOne frame.now.circuit.now frame.now.keep.now records.old records.new)) }
{
    if !records.certify {
        return Ok(Some(set));
    }
    match certificate_by_units(alloc, frame, &set, records.flows.as_slice())? {
        Some(certificate) => {
            records.add(certificate)?;
            Ok(Some(set))
        }
        None => Ok(None),
    }
}

/// Returns the sizes from which on a circuit is cut into parts, by whether its routes are told.
fn sizes_of(records: &Records) -> Sizes {
    if records.certify {
        Sizes::OF_ROUTES
    } else {
        Sizes::OF_RUN
    }
}

/// Returns the chosen least set of a frame if a flow of units shows it, and adds its certificate.
/// Otherwise the records change in their flows only.
fn shown_in<R: Threads + Sync, G: PhaseGate>(
    rt: &R,
    alloc: Global,
    frame: &Frame,
    choice: Choice,
    crew: &Crew<G>,
    records: &mut Records,
) -> Result<Option<ClosedSet>, NoMemory>
    ensures set { IfOk result (λ shown. IfSome shown (IsChosen choice frame.now.circuit.now
        frame.now.keep.now)) }
    ensures certificate { IfOk result (λ shown. MatchOption shown (AddsNone records.old records.new)
        (AddsOne frame.now.circuit.now frame.now.keep.now records.old records.new)) }
{
    let sizes = sizes_of(records);
    let mut flow = records.take_flow(alloc);
    let shown = chosen_by_sizes(rt, alloc, frame, choice, crew, sizes, &mut flow);
    records.keep_flow(flow);
    match shown {
        Ok(Some(set)) => certified(alloc, frame, set, records),
        Ok(None) => Ok(None),
        Err(error) => Err(error),
    }
}

/// Makes the circuit's frame, and returns its chosen least set as [`shown_in`] does.
fn by_units<R: Threads + Sync, G: PhaseGate>(
    rt: &R,
    alloc: Global,
    circuit: &Circuit,
    keep: &Keep,
    choice: Choice,
    crew: &Crew<G>,
    records: &mut Records,
) -> Result<Option<ClosedSet>, NoMemory>
    ensures set { IfOk result (λ shown. IfSome shown (IsChosen choice circuit.now keep.now)) }
    ensures certificate { IfOk result (λ shown. MatchOption shown (AddsNone records.old records.new)
        (AddsOne circuit.now keep.now records.old records.new)) }
{
    let frame = Frame::new(alloc, circuit, keep)?;
    let shown = shown_in(rt, alloc, &frame, choice, crew, records);
    drop(frame);
    shown
}

/// Returns the chosen least set, by the circuit's network, and adds its certificate if certificates
/// are wanted. Otherwise no route is looked for.
fn by_network<G: PhaseGate>(
    rt: &(impl Threads + Sync),
    alloc: Global,
    circuit: &Circuit,
    keep: &Keep,
    choice: Choice,
    crew: &Crew<G>,
    records: &mut Records,
) -> Result<ClosedSet, NoMemory>
    ensures set { IfOk result (IsChosen choice circuit.now keep.now) }
    ensures certificate { IfOk result (AddsOne circuit.now keep.now records.old records.new) }
{
    if !records.certify {
        return chosen_of_network(rt, alloc, circuit, keep, choice, crew);
    }
    let (set, routes) = shown_by_network(rt, alloc, circuit, keep, choice, crew)?;
    let certificate = certificate_of(alloc, circuit, keep, &set, routes)?;
    records.add(certificate)?;
    Ok(set)
}

/// Finds the chosen least set of a circuit whose held latches stay.
///
/// The search starts from the records' flows, and leaves there what its own flow did at the
/// circuit's gates. Flows are hints: the set doesn't depend on them. If the records want
/// certificates, one of the set is added, which passes all tests of `certificates::check`.
///
/// If a flow of units shows the set, and the ways of its units pass those tests, no network is
/// made. Otherwise the records count a maximum flow of the circuit's network, from nothing. The
/// network, its flow and, for the smallest set, its routes are dropped.
///
/// # Errors
///
/// `NoMemory` if memory is refused. The records may then be those of before or of this run.
pub fn chosen_least_along<G: PhaseGate>(
    rt: &(impl Threads + Sync),
    alloc: Global,
    circuit: &Circuit,
    keep: &Keep,
    choice: Choice,
    crew: &Crew<G>,
    records: &mut Records,
) -> Result<ClosedSet, NoMemory>
    ensures set { IfOk result (IsChosen choice circuit.now keep.now) }
    ensures certificate { IfOk result (AddsOne circuit.now keep.now records.old records.new) }
{
    match by_units(rt, alloc, circuit, keep, choice, crew, records) {
        Ok(Some(set)) => Ok(set),
        Ok(None) => {
            records.count_network();
            by_network(rt, alloc, circuit, keep, choice, crew, records)
        }
        Err(error) => Err(error),
    }
}
