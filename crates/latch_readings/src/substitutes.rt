//! The circuit in which latches read as a reading says.
ghost use Rattle.std.specs.Prelude.{◌≡◌, IfOk, length};
ghost use Rattle.cleaned_circuits.specs.Merged.{replaced_circuit};
ghost use Rattle.merged_circuits.specs.Readings.{IsReading, substitutes_by};

use aig_graph::{Aig, Circuit, Keep, Lit, NoMemory};
use clean::{Substitution, merge_gates, replaced_circuit};
use std::alloc::Global;

/// Returns the literal that stands for each variable if latches read as `reads` says.
fn substitutes_by(alloc: Global, aig: &Aig, reads: &[Lit]) -> Result<Substitution, NoMemory>
    requires { length reads.now ≡ length aig.now.latches }
    ensures { IfOk result (λ substitutes. substitutes ≡ substitutes_by aig.now reads.now) }
{
    let mut substitutes = Substitution::new(alloc, aig.first_latch(), aig.latches_and_gates())?;
    for lit in reads {
        substitutes.push(*lit)?;
    }
    merge_gates(alloc, aig, &mut substitutes)?;
    Ok(substitutes)
}

/// Returns the circuit in which latches read as `reads` says. Nothing goes, and names stay.
///
/// # Errors
///
/// `NoMemory` if memory is refused.
pub fn circuit_by(
    alloc: Global,
    circuit: &Circuit,
    keep: &Keep,
    reads: &[Lit],
) -> Result<Circuit, NoMemory>
    requires { IsReading circuit.now.aig keep.now reads.now }
    ensures { IfOk result (λ after. after
        ≡ replaced_circuit (substitutes_by circuit.now.aig reads.now) circuit.now) }
{
    let _keep = keep;
    let aig = circuit.aig();
    let substitutes = substitutes_by(alloc, aig, reads)?;
    let after = replaced_circuit(alloc, circuit, &substitutes);
    drop(substitutes);
    after
}
