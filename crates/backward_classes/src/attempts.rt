//! One opening of a circuit: its latches move backward class by class, it is closed again, and
//! plain frames follow.

use crate::moving::{MovedClass, frames_of, held_at, map_of, move_class};
use aig_graph::{Circuit, Keep, Memory};
use backward_moves::{Drafted, MoveOptions};
use backward_sets::{DraftLatch, Literal, entry, has_mark, number, set_mark};
use checked_tables::put_if_covered;
use class_nets::{
    Closure, Net, NumberMap, Plan, Scene, held_positions, needed, sealed, set_literal,
};
use hold_drafts::Swept;
use sealed_drafts::drawn_circuit;
use std::mem;

/// The most classes that are moved after one opening.
const MOST_CLASSES: u32 = 256;

/// The most rounds over all classes.
const MOST_ROUNDS: u32 = 64;

/// Stands for the class of what nothing reads.
const UNREAD: u32 = u32::MAX;

/// A circuit that a draft has come to, and the latches of it that are held.
#[derive(Drop)]
pub(crate) struct Stand {
    pub circuit: Circuit,
    pub keep: Keep,
}

/// A circuit that has fewer latches than the one before, and how it came about.
#[derive(Drop)]
pub(crate) struct Attempt {
    pub stand: Stand,
    /// The maps of all steps, each of the states after it to those before.
    pub steps: Vec<NumberMap>,
    pub frames: u32,
    /// Marks the latches that took part; no mark if these are all that were opened.
    pub only: Vec<bool>,
}

impl Attempt {
    /// Returns the number of latches with a known reset.
    pub fn known_latches(&self) -> u32 {
        self.stand.circuit.aig().known_latches()
    }
}

/// Notes that latches of a class read a variable, or if several do that none does alone. What is
/// unread reads nothing.
fn note(owners: &mut [u32], place: u32, class: u32) {
    let known = entry(owners, place);
    let own = if class == UNREAD || class == known {
        known
    } else if known == UNREAD {
        class
    } else {
        0
    };
    put_if_covered(owners, place as usize, own);
}

/// Returns by variable, from the first latch on, the class of all latches that read it, over gates
/// or not. It is 0 if others do too.
fn owners_of(memory: &mut Memory, net: &Net) -> Vec<u32> {
    let mut owners = memory.table(UNREAD, net.size());
    for lit in &net.observed {
        put_if_covered(owners.as_mut_slice(), net.place(lit.var()) as usize, 0);
    }
    for latch in &net.latches {
        note(
            owners.as_mut_slice(),
            net.place(latch.next.var()),
            latch.class,
        );
    }
    let latches = net.many_latches();
    for place in (0..net.many_gates()).rev() {
        let class = entry(owners.as_slice(), latches.wrapping_add(place));
        let pair = net.gate(place);
        note(owners.as_mut_slice(), net.place(pair.larger.var()), class);
        note(owners.as_mut_slice(), net.place(pair.smaller.var()), class);
    }
    owners
}

/// Returns by class if it has a gate that its latches alone read: latches of other classes don't
/// move.
fn busy_classes(memory: &mut Memory, net: &Net) -> Vec<bool> {
    let owners = owners_of(memory, net);
    let mut busy = memory.table(false, (net.classes as usize).saturating_add(1));
    for place in net.latches.len()..owners.len() {
        set_mark(busy.as_mut_slice(), owners[place], true);
    }
    busy
}

/// A run over classes.
#[derive(Drop)]
struct Progress {
    options: MoveOptions,
    steps: Vec<NumberMap>,
    frames: u32,
    /// Marks the variables of the first latches that took part.
    moved: Vec<bool>,
}

impl Progress {
    /// Returns the limits of the next run, if a class takes `taken` levels.
    fn left(&self, taken: u32) -> MoveOptions {
        MoveOptions {
            frames: self.options.frames.saturating_sub(self.frames),
            levels: match self.options.levels {
                Some(levels) => Some(levels.saturating_sub(taken)),
                None => None,
            },
        }
    }

    /// Moves the latches of one class. Returns true if that leaves fewer.
    fn move_class(&mut self, memory: &mut Memory, net: &mut Net, class: u32) -> bool {
        let options = self.left(net.class(class).levels());
        let moved = self.moved.as_mut_slice();
        match move_class(memory, net, class, &options, moved) {
            Some(found) => {
                let MovedClass {
                    net: after,
                    map,
                    frames,
                } = found;
                drop(mem::replace(net, after));
                memory.push(&mut self.steps, map);
                self.frames = self.frames.saturating_add(frames);
                true
            }
            None => false,
        }
    }

    /// Moves the latches of all classes that may move. Returns true if that leaves fewer, and there
    /// are several such classes, so that others may move then.
    fn move_round(&mut self, memory: &mut Memory, net: &mut Net) -> bool {
        let busy = busy_classes(memory, net);
        let mut fewer = false;
        let mut tried = 0u32;
        for class in 1..net.classes.wrapping_add(1) {
            let may = has_mark(busy.as_slice(), class) & (tried < MOST_CLASSES);
            if may & !memory.is_refused() {
                tried = tried.wrapping_add(1);
                fewer = self.move_class(memory, net, class) | fewer;
            }
        }
        fewer & (tried > 1)
    }

    /// Moves the latches of all classes, until that doesn't leave fewer.
    fn move_all(&mut self, memory: &mut Memory, net: &mut Net) {
        for _ in 0..MOST_ROUNDS {
            if !self.move_round(memory, net) {
                return;
            }
        }
    }
}

/// Returns the map of the states of a closed circuit to those of the circuit of classes.
fn order_map(memory: &mut Memory, order: &[u32]) -> NumberMap {
    let mut outputs = memory.table(Literal::FALSE, order.len());
    for place in 0..order.len() {
        let own = Literal::of(number(place).wrapping_add(1));
        set_literal(outputs.as_mut_slice(), order[place], own);
    }
    NumberMap {
        inputs: number(order.len()),
        gates: memory.nothing(),
        outputs,
        constraints: memory.nothing(),
    }
}

/// Gives latches their literals among the gates that were kept.
fn renumber_latches(swept: &Swept, latches: &mut [DraftLatch]) {
    for place in 0..latches.len() {
        let next = swept.literal(latches[place].next);
        latches[place].next = next;
    }
}

/// Drops the gates of a closed circuit that nothing reads.
fn sweep(memory: &mut Memory, net: &Net, closed: &mut Closure) {
    let mut literals = memory.list(closed.latches.len());
    for latch in &closed.latches {
        memory.push(&mut literals, latch.next);
    }
    for lit in &closed.stands {
        memory.push(&mut literals, *lit);
    }
    let gates = closed.gates.as_slice();
    let swept = Swept::of(memory, net.first_gate(), gates, literals.as_slice());
    renumber_latches(&swept, closed.latches.as_mut_slice());
    swept.renumber(closed.stands.as_mut_slice());
    drop(mem::replace(&mut closed.gates, swept.into_gates()));
}

/// Returns the circuit of a draft from another one, with the latches of it that are held.
pub(crate) fn drawn(
    memory: &mut Memory,
    circuit: &Circuit,
    keep: &Keep,
    drafted: &Drafted,
) -> Option<Stand> {
    let latches = drafted.latches.as_slice();
    let after = drawn_circuit(
        memory.alloc(),
        circuit,
        latches,
        drafted.gates.as_slice(),
        drafted.stands.as_slice(),
    );
    let circuit = sealed(memory, after)?;
    let held = held_positions(memory, keep, latches);
    let keep = held_at(memory, &circuit, held.as_slice());
    Some(Stand { circuit, keep })
}

/// Closes a circuit of classes.
fn closed(
    memory: &mut Memory,
    scene: &Scene<'_>,
    net: &Net,
    progress: &mut Progress,
) -> Option<Stand> {
    let mut closed = scene.closure(memory, net);
    sweep(memory, net, &mut closed);
    let circuit = scene.drawn(memory, &closed)?;
    let held = held_positions(memory, scene.keep, closed.latches.as_slice());
    let keep = held_at(memory, &circuit, held.as_slice());
    let map = order_map(memory, closed.order.as_slice());
    memory.push(&mut progress.steps, map);
    Some(Stand { circuit, keep })
}

/// Takes plain frames, if they leave fewer latches.
fn finished(memory: &mut Memory, stand: Stand, progress: &mut Progress) -> Stand {
    let options = progress.left(0);
    let Some(mut drafted) = frames_of(memory, &stand.circuit, &stand.keep, &options) else {
        return stand;
    };
    match drawn(memory, &stand.circuit, &stand.keep, &drafted) {
        Some(after) => {
            let map = map_of(memory, &mut drafted);
            memory.push(&mut progress.steps, map);
            let taken = number(drafted.frames.len());
            progress.frames = progress.frames.saturating_add(taken);
            after
        }
        None => stand,
    }
}

/// Moves the latches of a circuit of classes, and closes it.
fn moved(
    memory: &mut Memory,
    scene: &Scene<'_>,
    mut net: Net,
    options: &MoveOptions,
) -> Option<Attempt> {
    let opened = net.opened_latches(memory);
    let mut progress = Progress {
        options: *options,
        steps: memory.nothing(),
        frames: 0,
        moved: memory.table(false, net.latches.len().saturating_add(1)),
    };
    progress.move_all(memory, &mut net);
    if progress.steps.is_empty() || memory.is_refused() {
        return None;
    }
    let only = needed(memory, opened.as_slice(), progress.moved.as_slice());
    let stand = closed(memory, scene, &net, &mut progress)?;
    let stand = finished(memory, stand, &mut progress);
    let Progress { steps, frames, .. } = progress;
    Some(Attempt {
        stand,
        steps,
        frames,
        only,
    })
}

/// Returns the circuit after its latches moved by a plan, if that leaves fewer. If there are marks,
/// only marked latches are opened.
pub(crate) fn attempted(
    memory: &mut Memory,
    scene: &Scene<'_>,
    plan: Plan,
    only: Option<&[bool]>,
    options: &MoveOptions,
) -> Option<Attempt> {
    let net = scene.net(memory, plan, only)?;
    let found = moved(memory, scene, net, options)?;
    if scene.is_bettered_by(memory, &found.stand.circuit, options.levels) {
        Some(found)
    } else {
        None
    }
}
