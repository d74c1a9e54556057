ghost use Rattle.std.specs.Prelude.{◌≡◌, IfOk, length, map};
ghost use Rattle.witnesses.specs.Found.{AreFound};
ghost use Rattle.witnesses.specs.Runs.{is_one, run_of};

use crate::free::free_digits;
use crate::reached::first_steps;
use crate::witness::{Digit, Witness};
use aig_graph::{Aig, Circuit, NoMemory, Sequence};
use lane_sim::InputSequence;
use std::alloc::Global;

pub(crate) fn is_one(digit: Digit) -> bool
    ensures { result ≡ is_one digit }
{
    match digit {
        Digit::One => true,
        Digit::Zero | Digit::Either => false,
    }
}

fn values(alloc: Global, digits: &[Digit]) -> Result<Sequence<bool>, NoMemory>
    ensures { IfOk result (λ values. values ≡ map is_one digits.now) }
{
    let mut values = Vec::new(alloc);
    for digit in digits {
        values.push(is_one(*digit))?;
    }
    Ok(Sequence::from_vec(values))
}

fn steps(alloc: Global, inputs: &[Sequence<Digit>]) -> Result<Sequence<Sequence<bool>>, NoMemory>
    ensures { IfOk result (λ steps. steps ≡ map (map is_one) inputs.now) }
{
    let mut steps = Vec::new(alloc);
    for row in inputs {
        steps.push(values(alloc, row.as_slice())?)?;
    }
    Ok(Sequence::from_vec(steps))
}

/// Returns the input sequence of a witness, with 0 for each x.
fn run_of(alloc: Global, aig: &Aig, witness: &Witness) -> Result<InputSequence, NoMemory>
    ensures { IfOk result (λ run. run ≡ run_of aig.now witness.now) }
{
    let free = free_digits(alloc, aig.latches(), witness.latches.as_slice())?;
    let choice = values(alloc, free.as_slice())?;
    let steps = steps(alloc, witness.inputs.as_slice())?;
    Ok(InputSequence { choice, steps })
}

/// Returns the step at which each property of a witness is reached first. The circuit is simulated
/// as the witness says, with 0 for each x.
pub(crate) fn steps_found(
    alloc: Global,
    circuit: &Circuit,
    witness: &Witness,
) -> Result<Vec<Option<usize>>, NoMemory>
    ensures many { IfOk result (λ found. length found.items ≡ length witness.now.properties) }
    ensures found { IfOk result (λ found. AreFound circuit.now (run_of circuit.now.aig witness.now)
        witness.now.properties found.items) }
{
    let mut runs = Vec::new(alloc);
    runs.push(run_of(alloc, circuit.aig(), witness)?)?;
    first_steps(
        alloc,
        circuit,
        runs.as_slice(),
        witness.properties.as_slice(),
    )
}
