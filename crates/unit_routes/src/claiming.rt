//! The certificate of a set, claimed by the routes of units and judged.
ghost use Rattle.std.specs.Prelude.{◌≡◌, IfOk, IfSome};
ghost use Rattle.aig_graph.specs.Closed.{IsClosedSet};
ghost use Rattle.certificates.specs.Verdicts.{IsVerdict};
ghost use Rattle.certificates.specs.declared.verdict.Verdict.TheVariants.{Yes};

use crate::following::routes_of_units;
use aig_graph::{Circuit, ClosedSet, NoMemory, Sequence};
use certificates::{Certificate, Verdict, check_closed};
use std::alloc::Global;
use unit_flows::{Frame, GateFlow};

/// Returns the members of a set.
fn members(alloc: Global, set: &ClosedSet) -> Result<Sequence<u32>, NoMemory>
    ensures { IfOk result (λ gates. gates ≡ set.now) }
{
    match Vec::from_slice(alloc, set.vars()) {
        Ok(gates) => Ok(Sequence::from_vec(gates)),
        Err(_) => Err(NoMemory),
    }
}

/// Claims that the units of a flow show a set: the claim has its gates, and a route for each unit
/// that leaves.
fn claim(
    alloc: Global,
    circuit: &Circuit,
    leaving: &[bool],
    set: &ClosedSet,
    flows: &[GateFlow],
) -> Result<Certificate, NoMemory>
    ensures { IfOk result (λ cert. cert.gates ≡ set.now) }
{
    let routes = routes_of_units(alloc, circuit, leaving, flows)?;
    match members(alloc, set) {
        Ok(gates) => Ok(Certificate {
            count: routes.len().min(u32::MAX as usize) as u32,
            gates,
            routes,
        }),
        Err(error) => {
            drop(routes);
            Err(error)
        }
    }
}

/// Returns the certificate of a closed set of a frame. Its routes are those of the units of
/// `flows`. There is none if it doesn't pass all tests of `certificates::check`.
///
/// `flows` are hints: any may be given.
///
/// # Errors
///
/// `NoMemory` if a table or a route is refused.
pub fn certificate_by_units(
    alloc: Global,
    frame: &Frame,
    set: &ClosedSet,
    flows: &[GateFlow],
) -> Result<Option<Certificate>, NoMemory>
    requires { IsClosedSet frame.now.circuit.now.aig frame.now.keep.now set.now }
    ensures gates { IfOk result (λ found. IfSome found (λ cert. cert.gates ≡ set.now)) }
    ensures passes { IfOk result (λ found. IfSome found (λ cert. IsVerdict
        frame.now.circuit.now frame.now.keep.now cert Yes)) }
{
    let (circuit, keep) = (frame.circuit, frame.keep);
    let (pass, leaving) = (frame.passable(), frame.leaving_marks());
    let certificate = claim(alloc, circuit, leaving, set, flows)?;
    match check_closed(alloc, circuit, keep, pass, leaving, set, &certificate) {
        Ok(Verdict::Yes) => Ok(Some(certificate)),
        Ok(Verdict::No(_)) => Ok(None),
        Err(error) => Err(error),
    }
}
