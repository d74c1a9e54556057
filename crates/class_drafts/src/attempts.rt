//! One opening of a circuit: its latches move class by class, it is closed again, and plain frames
//! follow.

use crate::running::{Limits, Progress, run};
use aig_graph::Memory;
use backward_sets::{Literal, number};
use class_nets::{Closure, GrowingMap, Net, Plan, Scene, held_positions, needed};
use mapped_answers::Made;
use pulse::{Crew, PhaseGate};
use std::mem;
use std::thread::Threads;

/// A circuit that has fewer latches than the one that was opened, and its map.
pub(crate) struct Attempt {
    pub made: Made,
    pub map: GrowingMap,
    pub frames: u32,
    /// Marks the latches over which others moved; no mark if these are all that were opened.
    pub only: Vec<bool>,
}

impl Drop for Attempt {
    // written out: docs/PROOFS.md, Drops and exits
    fn drop(self) {
        let Attempt {
            made: _made,
            map: _map,
            frames: _frames,
            only: _only,
        } = self;
    }
}

impl Attempt {
    /// Returns the circuit with its map of plain frames, the map of all, and the number of frames.
    pub fn into_parts(self) -> (Made, GrowingMap, u32) {
        let Attempt {
            made,
            map,
            frames,
            only: _only,
        } = self;
        (made, map, frames)
    }

    /// Returns the number of latches with a known reset.
    pub fn known_latches(&self) -> u32 {
        self.made.rounds.circuit.aig().known_latches()
    }

    /// Returns true if it leaves fewer latches, and no way gets too long.
    fn betters(&self, memory: &mut Memory, scene: &Scene<'_>, limits: Limits) -> bool {
        scene.is_bettered_by(memory, &self.made.rounds.circuit, limits.levels)
    }
}

/// Returns what the latches of a circuit of classes hold, closed again.
fn held_values(memory: &mut Memory, net: &Net, closed: &Closure) -> Vec<Literal> {
    let mut values = memory.list(closed.order.len());
    for place in &closed.order {
        memory.push(&mut values, net.latch(*place).value);
    }
    values
}

/// Closes a circuit of classes, and takes plain frames.
fn finished<G: PhaseGate>(
    scene: &Scene<'_>,
    rt: &(impl Threads + Sync),
    memory: &mut Memory,
    net: &Net,
    progress: &mut Progress,
    crew: &Crew<G>,
) -> Option<Made> {
    let closed = scene.closure(memory, net);
    let circuit = scene.drawn(memory, &closed);
    let held = held_positions(memory, scene.keep, closed.latches.as_slice());
    let values = held_values(memory, net, &closed);
    drop(mem::replace(&mut progress.growing.outputs, values));
    drop(closed);
    let Some(circuit) = circuit else {
        return None;
    };
    run(rt, memory, circuit, held, &progress.rest(), crew)
}

/// Moves the latches of a circuit of classes, and closes it.
fn moved<G: PhaseGate>(
    scene: &Scene<'_>,
    rt: &(impl Threads + Sync),
    memory: &mut Memory,
    net: &mut Net,
    limits: Limits,
    crew: &Crew<G>,
) -> Option<Attempt> {
    let opened = net.opened_latches(memory);
    let latches = number(scene.circuit.aig().latches().len());
    let mut progress = Progress::new(memory, latches, limits);
    progress.move_all(rt, memory, net, crew);
    if memory.is_refused() {
        return None;
    }
    let only = needed(memory, opened.as_slice(), progress.read.as_slice());
    match finished(scene, rt, memory, net, &mut progress, crew) {
        Some(made) => Some(progress.into_attempt(memory, made, only)),
        None => None,
    }
}

/// Returns the circuit after its latches moved by a plan, if that leaves fewer. If there are marks,
/// only marked latches are opened.
pub(crate) fn attempted<G: PhaseGate>(
    scene: &Scene<'_>,
    rt: &(impl Threads + Sync),
    memory: &mut Memory,
    plan: Plan,
    only: Option<&[bool]>,
    limits: Limits,
    crew: &Crew<G>,
) -> Option<Attempt> {
    let Some(mut net) = scene.net(memory, plan, only) else {
        return None;
    };
    let attempt = moved(scene, rt, memory, &mut net, limits, crew);
    drop(net);
    match attempt {
        Some(found) if found.betters(memory, scene, limits) => Some(found),
        _ => None,
    }
}
