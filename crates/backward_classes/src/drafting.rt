//! Openings one after another, until none leaves fewer latches.

use crate::attempts::{Attempt, Stand, attempted, drawn};
use aig_graph::{Circuit, Keep, Memory, NoMemory};
use backward_moves::{Drafted, MoveOptions};
use backward_sets::number;
use class_nets::{GrowingMap, NumberMap, PLANS, Plan, Scene, plan_of, sealed};
use sealed_drafts::drawn_map;
use std::alloc::Global;
use std::mem;

/// The most openings that leave fewer latches.
const MOST_OPENINGS: u32 = 1024;

/// A circuit in which latches moved backward, and the map of its states. That has an input for each
/// of its latches, and an output for each latch of the circuit that was read.
#[derive(Drop)]
pub struct ReturnedDraft {
    pub after: Circuit,
    pub map: Circuit,
    /// The number of frames that were taken.
    pub frames: u32,
}

/// A draft under way.
#[derive(Drop)]
struct Drafting {
    stand: Option<Stand>,
    /// The maps of all steps, each of the states after it to those before.
    steps: Vec<NumberMap>,
    options: MoveOptions,
    frames: u32,
    plan: u32,
    masks_first: bool,
}

/// Returns the better of two attempts: the second, unless it leaves more latches.
fn better(first: Attempt, second: Option<Attempt>) -> Attempt {
    match second {
        Some(second) if second.known_latches() <= first.known_latches() => second,
        _ => first,
    }
}

/// Returns the circuit after its latches moved by a plan, if that leaves fewer. Of the latches that
/// were opened only those that took part are opened then, if that leaves as few.
fn try_plan(
    memory: &mut Memory,
    scene: &Scene<'_>,
    plan: Plan,
    options: &MoveOptions,
) -> Option<Attempt> {
    let first = attempted(memory, scene, plan, None, options)?;
    if first.only.is_empty() {
        return Some(first);
    }
    let only = Some(first.only.as_slice());
    let second = attempted(memory, scene, plan, only, options);
    Some(better(first, second))
}

/// An attempt, and the number of its plan.
#[derive(Drop)]
struct Found {
    attempt: Attempt,
    plan: u32,
}

/// Opens a circuit by all plans, beginning with the one that has this number, until one leaves
/// fewer latches.
fn next_attempt(
    memory: &mut Memory,
    circuit: &Circuit,
    keep: &Keep,
    begin: u32,
    masks_first: bool,
    options: &MoveOptions,
) -> Option<Found> {
    let Some(scene) = Scene::of(memory, circuit, keep) else {
        return None;
    };
    for turn in 0..PLANS {
        let plan = begin.wrapping_add(turn) % PLANS;
        let found = try_plan(memory, &scene, plan_of(plan, masks_first), options);
        if memory.is_refused() {
            return None;
        }
        if let Some(attempt) = found {
            return Some(Found { attempt, plan });
        }
    }
    None
}

/// Returns copies of the entries of a list.
fn copied<T: Copy + Drop>(memory: &mut Memory, list: &[T]) -> Vec<T> {
    let mut copies = memory.list(list.len());
    for entry in list {
        memory.push(&mut copies, *entry);
    }
    copies
}

impl Drafting {
    /// Returns the draft that goes on from plain frames, if some were taken.
    fn new(
        memory: &mut Memory,
        circuit: &Circuit,
        keep: &Keep,
        plain: Option<&Drafted>,
        options: &MoveOptions,
        masks_first: bool,
    ) -> Drafting {
        let mut drafting = Drafting {
            stand: None,
            steps: memory.nothing(),
            options: *options,
            frames: 0,
            plan: 0,
            masks_first,
        };
        if let Some(drafted) = plain {
            drafting.stand = drawn(memory, circuit, keep, drafted);
            drafting.frames = number(drafted.frames.len());
            let map = NumberMap {
                inputs: number(drafted.latches.len()),
                gates: copied(memory, drafted.map_gates.as_slice()),
                outputs: copied(memory, drafted.map_outputs.as_slice()),
                constraints: memory.nothing(),
            };
            memory.push(&mut drafting.steps, map);
        }
        drafting
    }

    /// Returns the limits of what is left to do.
    fn left(&self) -> MoveOptions {
        MoveOptions {
            frames: self.options.frames.saturating_sub(self.frames),
            levels: self.options.levels,
        }
    }

    /// Returns an attempt from the circuit that the draft has come to; it began with `circuit`.
    fn find(&self, memory: &mut Memory, circuit: &Circuit, keep: &Keep) -> Option<Found> {
        let options = self.left();
        let (circuit, keep) = match &self.stand {
            Some(stand) => (&stand.circuit, &stand.keep),
            None => (circuit, keep),
        };
        next_attempt(memory, circuit, keep, self.plan, self.masks_first, &options)
    }

    /// Goes on from an attempt.
    fn take(&mut self, memory: &mut Memory, found: Found) {
        let Found { attempt, plan } = found;
        self.plan = plan;
        let Attempt {
            stand,
            steps,
            frames,
            only: _only,
        } = attempt;
        for step in steps {
            memory.push(&mut self.steps, step);
        }
        self.frames = self.frames.saturating_add(frames);
        drop(mem::replace(&mut self.stand, Some(stand)));
    }

    /// Opens the circuit until that doesn't leave fewer latches. Returns true if it did once.
    fn run(&mut self, memory: &mut Memory, circuit: &Circuit, keep: &Keep) -> bool {
        for turn in 0..MOST_OPENINGS {
            if self.frames >= self.options.frames {
                return turn > 0;
            }
            match self.find(memory, circuit, keep) {
                Some(found) => self.take(memory, found),
                None => return turn > 0,
            }
        }
        true
    }

    /// Returns the map of all steps.
    fn map(&self, memory: &mut Memory, latches: u32) -> NumberMap {
        let mut growing = GrowingMap::identity(memory, latches);
        for place in (0..self.steps.len()).rev() {
            growing.follow(memory, &self.steps[place]);
        }
        growing.into_map()
    }

    /// Returns the draft from a circuit.
    fn finished(self, memory: &mut Memory, circuit: &Circuit) -> Option<ReturnedDraft> {
        let frames = self.frames;
        let latches = match &self.stand {
            Some(stand) => number(stand.circuit.aig().latches().len()),
            None => 0,
        };
        let map = self.map(memory, latches);
        let Drafting { stand, .. } = self;
        let Stand { circuit: after, .. } = stand?;
        let (gates, outputs) = (map.gates.as_slice(), map.outputs.as_slice());
        let map = drawn_map(memory.alloc(), &after, circuit, gates, outputs, &[]);
        match sealed(memory, map) {
            Some(map) => Some(ReturnedDraft { after, map, frames }),
            None => {
                drop(after);
                None
            }
        }
    }
}

/// Returns the draft with classes that goes on from plain frames, if there are some.
fn drafted_from(
    memory: &mut Memory,
    circuit: &Circuit,
    keep: &Keep,
    plain: Option<&Drafted>,
    options: &MoveOptions,
    masks_first: bool,
) -> Option<ReturnedDraft> {
    let mut drafting = Drafting::new(memory, circuit, keep, plain, options, masks_first);
    if drafting.run(memory, circuit, keep) {
        drafting.finished(memory, circuit)
    } else {
        drop(drafting);
        None
    }
}

/// Returns the number of latches with a known reset that a draft leaves, or `most` without one.
fn left_by(drafted: &Option<ReturnedDraft>, most: u32) -> u32 {
    match drafted {
        Some(drafted) => drafted.after.aig().known_latches(),
        None => most,
    }
}

/// Returns the draft after plain frames, or one that begins with masks, if that leaves fewer
/// latches. Plain frames move a reset with the latches that it masks, and make latches of it.
fn fewest(
    memory: &mut Memory,
    circuit: &Circuit,
    keep: &Keep,
    plain: &Drafted,
    options: &MoveOptions,
) -> Option<ReturnedDraft> {
    let after_plain = drafted_from(memory, circuit, keep, Some(plain), options, true);
    let most = left_by(&after_plain, plain.known_latches());
    let anew = drafted_from(memory, circuit, keep, None, options, true);
    if left_by(&anew, most) < most {
        drop(after_plain);
        anew
    } else {
        drop(anew);
        after_plain
    }
}

/// Drafts a circuit in which latches moved backward, within classes of latches that hold their
/// values, or get constants, together. Goes on from a draft of plain frames, if there is one.
/// Masks are taken off by the first plans, or by the last ones. If it is by the first ones, that is
/// tried before any plain frame, too. Returns nothing if classes don't leave fewer latches.
///
/// Each opening costs some runs of plain frames, and time linear in the circuit.
///
/// # Errors
///
/// `NoMemory` if memory is refused.
pub fn draft_returned(
    alloc: Global,
    circuit: &Circuit,
    keep: &Keep,
    plain: Option<&Drafted>,
    options: &MoveOptions,
    masks_first: bool,
) -> Result<Option<ReturnedDraft>, NoMemory> {
    let mut memory = Memory::of(alloc);
    let drafted = match plain {
        Some(plain) if masks_first => fewest(&mut memory, circuit, keep, plain, options),
        _ => drafted_from(&mut memory, circuit, keep, plain, options, masks_first),
    };
    if memory.is_refused() {
        drop(drafted);
        Err(NoMemory)
    } else {
        Ok(drafted)
    }
}
