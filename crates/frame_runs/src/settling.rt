//! The cleaning of a moved circuit, which mostly has nothing to clean. A look at its low copies
//! tells so for a fraction of the cost of a cleaning.
ghost use Rattle.std.specs.Prelude.{◌≡◌, ◌<◌, ◌≤◌, ◌-◌, All, IfOk, length, true};
ghost use Rattle.aig_graph.specs.Circuits.{IsNetlist};
ghost use Rattle.aig_graph.specs.Graph.{IsGraph};
ghost use Rattle.aig_graph.specs.Laws.{all_free};
ghost use Rattle.frame_runs.specs.Following.{HasComeTo, IsCleanedFollowed};
ghost use Rattle.clean.specs.Normalised.{AreLowNormalised, IsNormalised};

use crate::follower::RunFollower;
use crate::given::GivenCircuit;
use aig_graph::{Circuit, Keep, NoMemory};
use clean::{Cleaned, all_places, are_low_normalised};
use std::alloc::Global;

/// Returns a normalised circuit as its own cleaning. All latches and gates stay, so none is marked.
fn as_cleaned<E: From<NoMemory>>(alloc: Global, circuit: Circuit, keep: Keep) -> Result<Cleaned, E>
    ensures circuit { IfOk result (λ d. d.circuit ≡ circuit) }
    ensures keep { IfOk result (λ d. d.keep ≡ keep) }
    ensures kept_free { IfOk result (λ d. d.kept_free ≡ all_free circuit.aig) }
{
    match all_places(alloc, circuit.aig()) {
        Ok(kept_free) => Ok(Cleaned {
            circuit,
            keep,
            kept_free,
            kept: Vec::new(alloc),
        }),
        Err(error) => {
            drop(circuit);
            drop(keep);
            Err(E::from(error))
        }
    }
}

/// Cleans a circuit by the follower.
fn cleaned_over<F: RunFollower>(
    alloc: Global,
    follower: &mut F,
    circuit: Circuit,
    keep: Keep,
) -> Result<Cleaned, F::Stop>
    requires there { HasComeTo F.has_come follower.old circuit }
    requires in_range { All (λ j. j < length circuit.aig.latches) keep }
    ensures { IfOk result (IsCleanedFollowed F.has_come keep circuit follower.old follower.new) }
{
    // Tells the prover that it is a circuit.
    circuit.known();
    let cleaned = follower.clean(alloc, GivenCircuit::Owned(circuit), &keep);
    drop(keep);
    cleaned
}

/// Returns true if the low copies are normalised. `copies` is the number of copied gates; they are
/// the last gates.
fn is_settled(alloc: Global, circuit: &Circuit, copies: usize) -> Result<bool, NoMemory>
    requires { copies ≤ length circuit.now.aig.gates }
    ensures lows { IfOk result (λ yes. yes ≡ true → AreLowNormalised circuit.now.aig
        (length circuit.now.aig.gates - copies)) }
    ensures graph { IsGraph circuit.now.aig }
    ensures netlist { IsNetlist circuit.now }
{
    are_low_normalised(alloc, circuit.aig(), copies)
}

/// Cleans a moved circuit, unless its low copies are already normalised. `copies` is the number of
/// copied gates; they are the last gates.
pub(crate) fn settled<F: RunFollower>(
    alloc: Global,
    follower: &mut F,
    circuit: Circuit,
    keep: Keep,
    copies: usize,
) -> Result<Cleaned, F::Stop>
    requires there { HasComeTo F.has_come follower.old circuit }
    requires in_range { All (λ j. j < length circuit.aig.latches) keep }
    requires copies { copies ≤ length circuit.aig.gates }
    requires normalised { AreLowNormalised circuit.aig (length circuit.aig.gates - copies)
        → IsNormalised keep circuit }
    ensures { IfOk result (IsCleanedFollowed F.has_come keep circuit follower.old follower.new) }
{
    match is_settled(alloc, &circuit, copies) {
        Ok(true) => as_cleaned(alloc, circuit, keep),
        Ok(false) => cleaned_over(alloc, follower, circuit, keep),
        Err(error) => {
            drop(circuit);
            drop(keep);
            Err(F::Stop::from(error))
        }
    }
}
