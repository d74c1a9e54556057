//! The certificate of a least set.
ghost use Rattle.std.specs.Prelude.{◌≡◌, IfOk};
ghost use Rattle.aig_graph.specs.Border.{IsLeast};
ghost use Rattle.certificates.specs.Verdicts.{IsVerdict};
ghost use Rattle.certificates.specs.declared.verdict.Verdict.TheVariants.{Yes};
ghost use Rattle.cut_cert.specs.Shown.{AreLeastRoutes};

use aig_graph::{Circuit, ClosedSet, Keep, NoMemory, Sequence, count};
use certificates::{Certificate, Routes};
use std::alloc::Global;

/// Returns the members of a set.
fn members(alloc: Global, set: &ClosedSet) -> Result<Sequence<u32>, NoMemory>
    ensures { IfOk result (λ gates. gates ≡ set.now) }
{
    match Vec::from_slice(alloc, set.vars()) {
        Ok(gates) => Ok(Sequence::from_vec(gates)),
        Err(_) => Err(NoMemory),
    }
}

/// Makes the certificate of a least set: its gates, the size of its border, and routes as
/// [`crate::routes`] finds them.
///
/// The routes show that no closed set has a smaller border. The certificate passes all tests of
/// `certificates::check`.
///
/// # Errors
///
/// `NoMemory` if a table or the list of gates is refused.
pub fn certificate_of(
    alloc: Global,
    circuit: &Circuit,
    keep: &Keep,
    set: &ClosedSet,
    routes: Routes,
) -> Result<Certificate, NoMemory>
    requires least { IsLeast circuit.now keep.now set.now }
    requires routes { AreLeastRoutes circuit.now keep.now routes }
    ensures gates { IfOk result (λ cert. cert.gates ≡ set.now) }
    ensures passes { IfOk result (λ cert. IsVerdict circuit.now keep.now cert Yes) }
{
    let count = count(alloc, circuit, set, keep)?;
    let gates = members(alloc, set)?;
    Ok(Certificate {
        count,
        gates,
        routes,
    })
}
