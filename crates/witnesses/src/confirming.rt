//! Confirms that a witness, carried back, shows in the one circuit what it shows in the other. By
//! the laws it does if the properties of both always agree. Two files needn't be such a pair, so
//! both are simulated.
ghost use Rattle.std.specs.Prelude.{◌≡◌, IfOk, length};
ghost use Rattle.aig_graph.specs.Circuits.{Netlist};
ghost use Rattle.lane_sim.specs.declared.stimulus.InputSequence.{InputSequence};
ghost use Rattle.witnesses.specs.declared.witness.Property.TheVariants.{Bad};
ghost use Rattle.witnesses.specs.Found.{AreFound, IsReachingStep};
ghost use Rattle.witnesses.specs.Confirming.{is_step, with_reached, IsAgreed, IsConfirmation, IsConfirmedBack};

use crate::carrying::carried_back;
use crate::runs::steps_found;
use crate::settling::settled_witness;
use crate::witness::{Property, Reached, Witness};
use aig_graph::{Circuit, NoMemory, Sequence};
use std::alloc::Global;

/// Why a witness of a retimed circuit isn't confirmed.
#[derive(Clone, Copy, Debug)]
pub enum Objection {
    /// A justice property, which no finite number of steps shows to fail.
    Unchecked(Property),
    /// The property doesn't fail in the retimed circuit.
    Unreached(Property),
    /// It fails there, but first at another step than in the other circuit.
    Lost(Property),
}

/// A witness without an x, and the first step at which each of its properties fails.
#[derive(Drop)]
pub struct Confirmed {
    pub witness: Witness,
    pub reached: Sequence<Reached>,
}

impl Objection {
    ghost use Rattle.std.specs.Prelude.{◌≡◌};
    ghost use Rattle.witnesses.specs.Texts.{property_in};

    /// Returns the property that it is about.
    pub fn property(self) -> Property
        ensures { result ≡ property_in self }
    {
        match self {
            Objection::Unchecked(property) => property,
            Objection::Unreached(property) => property,
            Objection::Lost(property) => property,
        }
    }
}

/// Returns true if this step was found.
fn is_step(found: Option<usize>, step: usize) -> bool
    ensures { result ≡ is_step found step }
{
    match found {
        Some(found) => found == step,
        None => false,
    }
}

/// Returns the step at which a bad state is reached first in both circuits, by what was found in
/// each.
fn agreed_step(
    number: usize,
    found: Option<usize>,
    retimed_found: Option<usize>,
) -> Result<Reached, Objection>
    ensures { (c d : Netlist) (run other : InputSequence) → IsReachingStep c run (Bad number) found
        → IsReachingStep d other (Bad number) retimed_found
        → IsAgreed c d run other (Bad number) result }
{
    let property = Property::Bad(number);
    let Some(step) = retimed_found else {
        return Err(Objection::Unreached(property));
    };
    if is_step(found, step) {
        return Ok(Reached { property, step });
    }
    Err(Objection::Lost(property))
}

/// Returns the step at which a property fails first in both circuits.
fn agreed(
    property: Property,
    found: Option<usize>,
    retimed_found: Option<usize>,
) -> Result<Reached, Objection>
    ensures { (c d : Netlist) (run other : InputSequence) → IsReachingStep c run property found
        → IsReachingStep d other property retimed_found → IsAgreed c d run other property result }
{
    match property {
        Property::Bad(number) => agreed_step(number, found, retimed_found),
        Property::Justice(_) => Err(Objection::Unchecked(property)),
    }
}

/// Returns the steps at which properties fail first in both circuits, or the first objection.
fn all_agreed(
    alloc: Global,
    properties: &[Property],
    found: &[Option<usize>],
    retimed_found: &[Option<usize>],
) -> Result<Result<Sequence<Reached>, Objection>, NoMemory>
    requires found { length found.now ≡ length properties.now }
    requires retimed { length retimed_found.now ≡ length properties.now }
    ensures { IfOk result (λ said. (c d : Netlist) (run other : InputSequence)
        → AreFound c run properties.now found.now
        → AreFound d other properties.now retimed_found.now
        → IsConfirmation c d run other properties.now said) }
{
    let mut reached = Vec::new(alloc);
    for k in 0..properties.len() {
        let property = properties[k];
        let one = found[k];
        let other = retimed_found[k];
        match agreed(property, one, other) {
            Ok(step) => reached.push(step)?,
            Err(objection) => return Ok(Err(objection)),
        }
    }
    Ok(Ok(Sequence::from_vec(reached)))
}

/// Carries the witness of a retimed circuit back to the circuit that it was made of, as
/// `carried_back` does. Simulates both, with 0 for each x. Returns what was simulated there, with
/// the first step at which each property fails, if both circuits agree on it. Otherwise returns the
/// first objection.
pub fn confirm(
    alloc: Global,
    circuit: &Circuit,
    retimed: &Circuit,
    kept: &[u32],
    witness: Witness,
) -> Result<Result<Confirmed, Objection>, NoMemory>
    ensures { IfOk result (IsConfirmedBack circuit.now retimed.now kept.now witness) }
{
    let retimed_found = steps_found(alloc, retimed, &witness)?;
    let carried = carried_back(alloc, circuit.aig(), retimed.aig(), kept, witness)?;
    let back = settled_witness(alloc, carried)?;
    let found = steps_found(alloc, circuit, &back)?;
    let properties = back.properties.as_slice();
    let said = all_agreed(
        alloc,
        properties,
        found.as_slice(),
        retimed_found.as_slice(),
    )?;
    Ok(with_reached(back, said))
}

fn with_reached(
    witness: Witness,
    found: Result<Sequence<Reached>, Objection>,
) -> Result<Confirmed, Objection>
    ensures { result ≡ with_reached witness found }
{
    match found {
        Ok(reached) => Ok(Confirmed { witness, reached }),
        Err(objection) => Err(objection),
    }
}
