//! Frames until none saves a latch.

use crate::again::Again;
use crate::composing::{FrameMap, WholeMap, composed};
use crate::frame::{FrameCounts, Moved, next_frame};
use crate::reading::{Inputs, draft_of, stands_of};
use crate::staying::{Staying, staying_of};
use crate::sweeping::sweep;
use crate::watching::{MoveStage, MoveWatcher};
use aig_graph::{Aig, Circuit, Keep, Lit, Memory, NoMemory, property_literals};
use backward_rows::Rows;
use backward_sets::{Draft, DraftLatch, DraftReset, Literal, Pair, levels_of};
use std::alloc::Global;
use std::mem;

/// Limits of moving latches: over at most `frames` frames, and with no way of more than `levels`
/// gates, unless the circuit has one.
#[derive(Clone, Copy)]
pub struct MoveOptions {
    pub frames: u32,
    pub levels: Option<u32>,
}

/// A circuit as numbers, with the inputs of the first one: its latches and gates. `stands` has the
/// literals of each latch and gate of the first that a property reads. With it comes the map of its
/// states to those of the first. The map has gates over its latches, and a literal for each latch
/// of the first. There its latches have the variables from 1 on.
#[derive(Drop)]
pub struct Drafted {
    pub latches: Vec<DraftLatch>,
    pub gates: Vec<Pair>,
    pub stands: Vec<Literal>,
    pub map_gates: Vec<Pair>,
    pub map_outputs: Vec<Literal>,
    pub frames: Vec<FrameCounts>,
    /// The reasons for which the other latches stay.
    pub staying: Staying,
}

/// The result of moving latches.
#[derive(Drop)]
pub enum Moves {
    /// A draft with fewer latches.
    Drafted(Drafted),
    /// No frame leaves fewer latches. Says why they stay.
    Unmoved(Staying),
}

impl Drafted {
    /// Returns the number of latches with a known reset.
    pub fn known_latches(&self) -> u32 {
        known_latches(self.latches.as_slice())
    }

    /// Returns the counts of the frames.
    pub fn into_frames(self) -> Vec<FrameCounts> {
        let Drafted {
            latches: _latches,
            gates: _gates,
            stands: _stands,
            map_gates: _map_gates,
            map_outputs: _map_outputs,
            frames,
            staying: _staying,
        } = self;
        frames
    }
}

/// Returns the number of latches with a known reset.
fn known_latches(latches: &[DraftLatch]) -> u32 {
    let mut count = 0u32;
    for latch in latches {
        count = count.wrapping_add(u32::from(latch.reset != DraftReset::Free));
    }
    count
}

/// A run of frames.
struct Run {
    inputs: Inputs,
    draft: Draft,
    again: Again,
    rows: Rows,
    maps: Vec<FrameMap>,
    frames: Vec<FrameCounts>,
}

impl Drop for Run {
    // written out: docs/PROOFS.md, Drops and exits
    fn drop(self) {
        let Run {
            inputs: _inputs,
            draft: _draft,
            again: _again,
            rows: _rows,
            maps: _maps,
            frames: _frames,
        } = self;
    }
}

/// Lets each latch that may start with either value start with 0, and read its literal of the first
/// circuit.
fn restore_latches(latches: &mut [DraftLatch], inputs: &Inputs) {
    for place in 0..latches.len() {
        if latches[place].reset == DraftReset::Any {
            latches[place].reset = DraftReset::Zero;
        }
        latches[place].next = inputs.original(latches[place].next);
    }
}

/// Replaces the literals of gates by those of the first circuit.
fn restore_gates(gates: &mut [Pair], inputs: &Inputs) {
    for place in 0..gates.len() {
        let pair = gates[place];
        gates[place] = Pair {
            larger: inputs.original(pair.larger),
            smaller: inputs.original(pair.smaller),
        };
    }
}

/// Replaces literals by those of the first circuit.
fn restore_literals(literals: &mut [Literal], inputs: &Inputs) {
    for place in 0..literals.len() {
        literals[place] = inputs.original(literals[place]);
    }
}

impl Run {
    /// Begins a run in which no frame was taken yet. Gates that nothing reads are dropped.
    fn new(memory: &mut Memory, circuit: &Circuit, keep: &Keep, properties: &[Lit]) -> Run {
        let inputs = Inputs::of(memory, circuit, properties);
        let mut draft = draft_of(memory, circuit, keep, &inputs, properties);
        drop(sweep(memory, &mut draft));
        let mut again = Again::none(memory);
        let mut rows = Rows::none(memory);
        rows.keep_up(memory, &mut draft, &mut again.marks);
        Run {
            inputs,
            draft,
            again,
            rows,
            maps: memory.nothing(),
            frames: memory.nothing(),
        }
    }

    /// Notes the counts and the map of a frame. Latches that were left out count as ones that took
    /// part in it, and stayed.
    fn note(&mut self, memory: &mut Memory, counts: FrameCounts, map: FrameMap) {
        let counts = FrameCounts {
            before: counts.before.wrapping_add(self.rows.many()),
            after: counts.after.wrapping_add(self.rows.many()),
            ..counts
        };
        memory.push(&mut self.frames, counts);
        memory.push(&mut self.maps, map);
    }

    /// Goes on from the result of a frame.
    fn take(&mut self, memory: &mut Memory, moved: Moved) {
        let Moved {
            draft,
            map,
            counts,
            again,
        } = moved;
        drop(mem::replace(&mut self.draft, draft));
        drop(mem::replace(&mut self.again, again));
        self.note(memory, counts, map);
        self.rows
            .keep_up(memory, &mut self.draft, &mut self.again.marks);
    }

    /// Takes one frame, if it saves a latch. Returns true if it does, and no memory was refused.
    fn advance(&mut self, memory: &mut Memory, bound: Option<u32>) -> bool {
        match next_frame(memory, &self.draft, bound, &mut self.again) {
            Some(moved) => {
                self.take(memory, moved);
                !memory.is_refused()
            }
            None => false,
        }
    }

    /// Returns the stage in which the set of the next frame is looked for.
    fn looking(&self) -> MoveStage {
        MoveStage::Looking {
            taken: self.frames.len(),
            latches: known_latches(self.draft.latches.as_slice()).wrapping_add(self.rows.many()),
            gates: self.draft.gates.len(),
        }
    }

    /// Returns the bound on ways: the one that is asked for, or the longest way if that is more.
    fn bound(&self, memory: &mut Memory, options: &MoveOptions) -> Option<u32> {
        match options.levels {
            Some(levels) => Some(levels.max(levels_of(memory, &self.draft))),
            None => None,
        }
    }

    /// Takes frames until none saves a latch, or memory is refused. Returns false if the limit of
    /// frames ends it first.
    fn advance_all<W: MoveWatcher>(
        &mut self,
        memory: &mut Memory,
        frames: u32,
        bound: Option<u32>,
        watcher: &mut W,
    ) -> bool {
        for _ in 0..frames {
            watcher.begin(self.looking());
            if !self.advance(memory, bound) {
                return true;
            }
        }
        false
    }

    /// Takes frames, and gives all latches back that were left out. Returns why the latches stay
    /// that are left.
    fn move_all<W: MoveWatcher>(
        &mut self,
        memory: &mut Memory,
        options: &MoveOptions,
        watcher: &mut W,
    ) -> Staying {
        let bound = self.bound(memory, options);
        let is_least = self.advance_all(memory, options.frames, bound, watcher);
        self.rows
            .restore(memory, &mut self.draft, &mut self.again.marks);
        staying_of(memory, &self.draft, bound, is_least)
    }

    /// Makes the draft one of the first circuit.
    fn restore(&mut self) {
        restore_latches(self.draft.latches.as_mut_slice(), &self.inputs);
        restore_gates(self.draft.gates.as_mut_slice(), &self.inputs);
        restore_literals(self.draft.observed.as_mut_slice(), &self.inputs);
    }

    /// Returns the draft of the first circuit, with the literals of what its properties read, and a
    /// map.
    fn into_drafted(self, stands: Vec<Literal>, map: WholeMap, staying: Staying) -> Drafted {
        let Run {
            inputs: _inputs,
            draft,
            again: _again,
            rows: _rows,
            maps: _maps,
            frames,
        } = self;
        let (latches, gates) = draft.into_latches_and_gates();
        let WholeMap {
            gates: map_gates,
            outputs: map_outputs,
        } = map;
        Drafted {
            latches,
            gates,
            stands,
            map_gates,
            map_outputs,
            frames,
            staying,
        }
    }

    /// Returns the result of the run, if frames were taken.
    fn finished(
        mut self,
        memory: &mut Memory,
        aig: &Aig,
        properties: &[Lit],
        staying: Staying,
    ) -> Drafted {
        self.restore();
        let stands = stands_of(memory, aig, properties, self.draft.observed.as_slice());
        let first = aig.latches().len();
        let map = composed(memory, self.maps.as_slice(), first, &self.draft);
        self.into_drafted(stands, map, staying)
    }
}

/// Returns the result for a circuit whose properties read `properties`, unless memory was refused.
fn moved_draft<W: MoveWatcher>(
    memory: &mut Memory,
    circuit: &Circuit,
    keep: &Keep,
    properties: &[Lit],
    options: &MoveOptions,
    watcher: &mut W,
) -> Moves {
    let mut run = Run::new(memory, circuit, keep, properties);
    if memory.is_refused() {
        return Moves::Unmoved(Staying::NONE);
    }
    let staying = run.move_all(memory, options, watcher);
    if memory.is_refused() {
        return Moves::Unmoved(Staying::NONE);
    }
    watcher.begin(MoveStage::Checking);
    if run.frames.is_empty() {
        Moves::Unmoved(staying)
    } else {
        Moves::Drafted(run.finished(memory, circuit.aig(), properties, staying))
    }
}

/// Moves the latches of a circuit backward that aren't held, as long as that saves some.
///
/// # Errors
///
/// `NoMemory` if a table is refused.
pub fn draft_moves<W: MoveWatcher>(
    alloc: Global,
    circuit: &Circuit,
    keep: &Keep,
    options: &MoveOptions,
    watcher: &mut W,
) -> Result<Moves, NoMemory> {
    let mut memory = Memory::of(alloc);
    let Ok(properties) = property_literals(alloc, circuit.props()) else {
        return Err(NoMemory);
    };
    let properties = properties.as_slice();
    let moves = moved_draft(&mut memory, circuit, keep, properties, options, watcher);
    if memory.is_refused() {
        Err(NoMemory)
    } else {
        Ok(moves)
    }
}
