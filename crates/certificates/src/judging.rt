//! The tests of a certificate, in their order. If all pass, the set is least by weak duality. No
//! border is smaller than the number of routes that are apart, and this one has that size. The
//! maker of set and routes need not be known.
ghost use Rattle.std.specs.Prelude.{◌≡◌, ◌↔◌, IfOk, IsTrue, MatchOption};
ghost use Rattle.aig_graph.specs.Tables.{table};
ghost use Rattle.aig_graph.specs.Graph.{first_latch, latches_and_gates};
ghost use Rattle.aig_graph.specs.Closed.{IsClosedSet};
ghost use Rattle.frame_net.specs.Passable.{IsPassSet};
ghost use Rattle.frame_net.specs.Capacity.{is_observed};
ghost use Rattle.certificates.specs.Verdicts.{AreApart, AreRoutes, IsVerdict};

use crate::apart::are_distinct;
use crate::certificate::Certificate;
use crate::routes::Routes;
use crate::verdict::{Objection, Verdict};
use crate::walk::is_route;
use aig_graph::{Circuit, ClosedSet, Keep, NoMemory, count, is_closed};
use frame_net::{PassSet, leaving_marks, passable};
use std::alloc::Global;

/// Returns the gates as a closed set of the circuit, if they are one.
fn closed_set(
    alloc: Global,
    circuit: &Circuit,
    gates: &[u32],
    keep: &Keep,
) -> Result<Option<ClosedSet>, NoMemory>
    ensures { IfOk result (λ found. MatchOption found
        (IsClosedSet circuit.now.aig keep.now gates.now → ⊥) (λ set. (set ≡ gates.now)
        × IsClosedSet circuit.now.aig keep.now set)) }
{
    let mut vars = Vec::with_capacity(alloc, gates.len())?;
    vars.extend_from_slice(gates)?;
    match ClosedSet::new(vars) {
        Some(set) if is_closed(circuit.aig(), &set, keep) => Ok(Some(set)),
        _ => Ok(None),
    }
}

/// Returns true if each list of points is a route, by the passable gates and by marks of what is
/// read from outside them.
fn all_routes(
    circuit: &Circuit,
    keep: &Keep,
    pass: &PassSet,
    leaving: &[bool],
    routes: &Routes,
) -> bool
    requires pass { IsPassSet circuit.now.aig keep.now pass.now }
    requires leaving { leaving.now ≡ table (first_latch circuit.now.aig)
        (latches_and_gates circuit.now.aig) (is_observed circuit.now.aig circuit.now.props
        keep.now) }
    ensures { IsTrue result ↔ AreRoutes circuit.now keep.now routes.now }
{
    for number in 0..routes.len() {
        if !is_route(circuit, keep, pass, leaving, routes.route(number)) {
            return false;
        }
    }
    true
}

/// Returns true if the routes are routes of the circuit, and apart from one another.
fn are_apart(
    alloc: Global,
    circuit: &Circuit,
    keep: &Keep,
    routes: &Routes,
) -> Result<bool, NoMemory>
    requires { AreRoutes circuit.now keep.now routes.now }
    ensures { IfOk result (λ are. IsTrue are ↔ AreApart routes.now) }
{
    let aig = circuit.aig();
    let _keep = keep;
    let mut marks = vec![in alloc; false; aig.latches_and_gates()]?;
    Ok(are_distinct(marks.as_mut_slice(), aig.first_latch(), routes.points()))
}

/// Judges a certificate of a closed set, by the circuit's passable gates and by marks of what is
/// read from outside them. Answers `Yes`, or the first test of the routes and the counts that it
/// fails. Linear in the circuit and in the points of the routes.
///
/// # Errors
///
/// `NoMemory` if a table is refused.
pub fn check_closed(
    alloc: Global,
    circuit: &Circuit,
    keep: &Keep,
    pass: &PassSet,
    leaving: &[bool],
    set: &ClosedSet,
    certificate: &Certificate,
) -> Result<Verdict, NoMemory>
    requires pass { IsPassSet circuit.now.aig keep.now pass.now }
    requires leaving { leaving.now ≡ table (first_latch circuit.now.aig)
        (latches_and_gates circuit.now.aig) (is_observed circuit.now.aig circuit.now.props
        keep.now) }
    requires set { set.now ≡ certificate.now.gates }
    requires closed { IsClosedSet circuit.now.aig keep.now set.now }
    ensures { IfOk result (λ verdict. IsVerdict circuit.now keep.now certificate.now verdict) }
{
    let routes = &certificate.routes;
    if !all_routes(circuit, keep, pass, leaving, routes) {
        return Ok(Verdict::No(Objection::BadRoute));
    }
    if !are_apart(alloc, circuit, keep, routes)? {
        return Ok(Verdict::No(Objection::UsedTwice));
    }
    let border = count(alloc, circuit, set, keep)?;
    if certificate.count == border && routes.len() == border as usize {
        Ok(Verdict::Yes)
    } else {
        Ok(Verdict::No(Objection::CountDiffers))
    }
}

/// Judges a certificate of a closed set.
fn verdict_of(
    alloc: Global,
    circuit: &Circuit,
    keep: &Keep,
    set: &ClosedSet,
    certificate: &Certificate,
) -> Result<Verdict, NoMemory>
    requires set { set.now ≡ certificate.now.gates }
    requires closed { IsClosedSet circuit.now.aig keep.now set.now }
    ensures { IfOk result (λ verdict. IsVerdict circuit.now keep.now certificate.now verdict) }
{
    let aig = circuit.aig();
    let pass = passable(alloc, aig, keep)?;
    let leaving = leaving_marks(alloc, aig, circuit.props(), &pass, keep)?;
    check_closed(
        alloc,
        circuit,
        keep,
        &pass,
        leaving.as_slice(),
        set,
        certificate,
    )
}

/// Judges a certificate for a circuit with these latches held. Answers `Yes`, or the first test
/// that it fails. Linear in the circuit and in the points of the routes.
///
/// # Errors
///
/// `NoMemory` if a table is refused.
pub fn check(
    alloc: Global,
    circuit: &Circuit,
    certificate: &Certificate,
    keep: &Keep,
) -> Result<Verdict, NoMemory>
    ensures { IfOk result (λ verdict. IsVerdict circuit.now keep.now certificate.now verdict) }
{
    match closed_set(alloc, circuit, certificate.gates.as_slice(), keep)? {
        Some(set) => verdict_of(alloc, circuit, keep, &set, certificate),
        None => Ok(Verdict::No(Objection::NotClosed)),
    }
}
