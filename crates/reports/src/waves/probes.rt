//! A circuit whose outputs are all that is shown of another one. So the simulator, as it stands,
//! gives the values of all waves.
ghost use Rattle.std.specs.Prelude.{◌≡◌, ◌++◌, ◌*◌, IfOk, OnOk};
ghost use Rattle.reports.specs.waves.Probes.{leaf_literals, probed, shown_literals};

use aig_graph::{Aig, Circuit, Lit, NoMemory, Props, Symbols, property_literals};
use std::alloc::Global;

/// Puts literals at the end.
fn append(literals: &mut Vec<Lit>, more: &[Lit]) -> Result<(), NoMemory>
    ensures { OnOk result (literals.new.items ≡ literals.old.items ++ more.now) }
{
    literals.extend_from_slice(more)?;
    Ok(())
}

/// Returns the literals of the inputs and the latches.
fn leaf_literals(alloc: Global, aig: &Aig) -> Result<Vec<Lit>, NoMemory>
    ensures { IfOk result (λ literals. literals.items ≡ leaf_literals aig.now) }
{
    aig.known();
    let count = aig.first_gate() - 1;
    let mut literals = Vec::with_capacity(alloc, count as usize)?;
    for k in 0..count {
        literals.push(Lit::new(1 + k, false))?;
    }
    Ok(literals)
}

/// Returns the literals of the inputs, of the latches and of the properties.
fn shown_literals(alloc: Global, circuit: &Circuit) -> Result<Vec<Lit>, NoMemory>
    ensures { IfOk result (λ literals. literals.items ≡ shown_literals circuit.now) }
{
    let properties = property_literals(alloc, circuit.props())?;
    let mut literals = leaf_literals(alloc, circuit.aig())?;
    append(&mut literals, properties.as_slice())?;
    Ok(literals)
}

fn copied_aig(alloc: Global, aig: &Aig) -> Result<Aig, NoMemory>
    ensures { IfOk result (λ copy. copy ≡ aig.now) }
{
    aig.known();
    let latches = Vec::from_slice(alloc, aig.latches())?;
    let gates = Vec::from_slice(alloc, aig.gates())?;
    Ok(Aig::from_parts(aig.inputs(), latches, gates))
}

/// Returns the circuit with all that is shown as its outputs: its trace has the value of each wave.
///
/// # Errors
///
/// Memory is refused.
pub fn probed(alloc: Global, circuit: &Circuit) -> Result<Circuit, NoMemory>
    ensures { IfOk result (λ copy. copy ≡ probed circuit.now) }
{
    circuit.known();
    let literals = shown_literals(alloc, circuit)?;
    let aig = copied_aig(alloc, circuit.aig())?;
    let props = Props::of_outputs(alloc, literals);
    Ok(Circuit::new(aig, props, Symbols::none(alloc)))
}
