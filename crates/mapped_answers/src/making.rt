//! A circuit retimed, with its map.
ghost use Rattle.std.specs.Prelude.{◌≡◌, ◌∷◌, [], IfErr, IfOk};
ghost use Rattle.frame_runs.specs.Named.{kept_by};
ghost use Rattle.frame_runs.specs.Stages.{Cleaning};
ghost use Rattle.mapped_answers.specs.Mapping.{IsMade, IsMakingError, IsMapped};
ghost use Rattle.merging_rounds.specs.Following.{AreRoundsSeen};
ghost use Rattle.retiming_maps.specs.Mapping.{IsMapTo};

use crate::errors::{AnswerError, FollowError};
use crate::following::GrowingMap;
use aig_graph::{Circuit, Keep, NoMemory};
use frame_runs::{FrameWatcher, GivenCircuit, Options, Run, Stage, begin, hold_by};
use merging_rounds::{Rounds, finish_rounds};
use pulse::{Crew, PhaseGate};
use retiming_maps::{MapError, StateMap, identity, state_map};
use std::alloc::Global;
use std::thread::Threads;

/// A retiming in rounds with its map.
#[derive(Drop)]
pub struct Made {
    pub rounds: Rounds,
    /// The held latches of the retimed circuit.
    pub keep: Keep,
    /// The map from the states of the circuit that was read to those of the retimed one.
    pub map: StateMap,
}

/// Makes the map of `circuit` to the circuit at the rounds' end, and puts it beside that circuit.
fn with_map(
    alloc: Global,
    circuit: &Circuit,
    end: Run<Rounds, GrowingMap>,
) -> Result<Made, MapError>
    requires { IsMapTo circuit.now end.retimed.circuit end.retimed.kept_free end.follower.parts }
    ensures mapped { IfOk result (IsMapped circuit.now) }
    ensures same { IfOk result (λ made. (made.rounds ≡ end.retimed) × (made.keep ≡ end.keep)) }
{
    let Run {
        retimed: rounds,
        keep,
        follower,
        ..
    } = end;
    match state_map(alloc, follower.parts, circuit, &rounds.circuit) {
        Ok(map) => Ok(Made { rounds, keep, map }),
        Err(NoMemory) => {
            drop(rounds);
            drop(keep);
            Err(MapError::NoMemory)
        }
    }
}

/// Retimes the circuit and makes its map. `keep` has the latches that the options hold.
fn made_kept<G: PhaseGate, V: FrameWatcher>(
    rt: &(impl Threads + Sync),
    alloc: Global,
    circuit: &Circuit,
    keep: &Keep,
    options: &Options,
    crew: &Crew<G>,
    watcher: &mut V,
) -> Result<Made, FollowError>
    requires { keep.now ≡ kept_by options.now circuit.now }
    ensures mapped { IfOk result (IsMapped circuit.now) }
    ensures seen { IfOk result (λ made. AreRoundsSeen V.was_notified [] [] options.now circuit.now
        made.rounds made.keep watcher.old watcher.new) }
{
    // Tells the prover that it is a circuit.
    circuit.known();
    let map = GrowingMap {
        parts: identity(alloc, circuit)?,
    };
    let begun = begin(alloc, GivenCircuit::Lent(circuit), keep, options, map)?;
    let end = finish_rounds(rt, alloc, begun, options, crew, watcher)?;
    let made = with_map(alloc, circuit, end)?;
    Ok(made)
}

/// Retimes the circuit and makes its map. Latches that always agree are merged if the options ask
/// for it.
pub fn made_of<G: PhaseGate, V: FrameWatcher>(
    rt: &(impl Threads + Sync),
    alloc: Global,
    circuit: &Circuit,
    options: &Options,
    crew: &Crew<G>,
    watcher: &mut V,
) -> Result<Made, AnswerError>
    ensures ok { IfOk result (IsMade options.now circuit.now) }
    ensures err { IfErr result (IsMakingError options.now circuit.now) }
    ensures seen { IfOk result (λ made. AreRoundsSeen V.was_notified (Cleaning ∷ []) [] options.now
        circuit.now made.rounds made.keep watcher.old watcher.new) }
{
    watcher.enter(Stage::Cleaning);
    let keep = hold_by(alloc, circuit, options)?;
    let made = made_kept(rt, alloc, circuit, &keep, options, crew, watcher)?;
    Ok(made)
}
