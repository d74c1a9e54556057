//! The latches of a class move backward, while all others are held.

use aig_graph::{Circuit, Keep, Memory, Reset, hold};
use backward_moves::{Drafted, MoveOptions, MoveStage, MoveWatcher, Moves, draft_moves};
use backward_sets::{DraftLatch, DraftReset, Literal, has_mark, number, set_mark};
use checked_tables::put_if_covered;
use class_nets::{ClassLatch, Net, NumberMap, draft_latch, literal_at, sealed};
use sealed_drafts::drawn_outputs;

/// Sees frames, and tells nobody.
#[derive(Drop)]
struct Quiet;

impl MoveWatcher for Quiet {
    fn begin(&mut self, _stage: MoveStage) {}
}

/// Returns the result of plain frames, if they leave fewer latches, unless memory is refused.
pub(crate) fn frames_of(
    memory: &mut Memory,
    circuit: &Circuit,
    keep: &Keep,
    options: &MoveOptions,
) -> Option<Drafted> {
    match draft_moves(memory.alloc(), circuit, keep, options, &mut Quiet) {
        Ok(Moves::Drafted(drafted)) => Some(drafted),
        Ok(Moves::Unmoved(_)) => None,
        Err(_) => {
            memory.refuse();
            None
        }
    }
}

/// Returns the latches at positions as held ones.
pub(crate) fn held_at(memory: &mut Memory, circuit: &Circuit, positions: &[u32]) -> Keep {
    match hold(memory.alloc(), circuit, &[], positions) {
        Ok(keep) => keep,
        Err(_) => {
            memory.refuse();
            Keep::none()
        }
    }
}

/// Returns a circuit of classes as one whose outputs are all that properties and classes read.
fn circuit_of(memory: &mut Memory, net: &Net) -> Option<Circuit> {
    let mut latches = memory.list(net.latches.len());
    for latch in &net.latches {
        memory.push(&mut latches, draft_latch(latch.next, latch.reset, None));
    }
    let circuit = drawn_outputs(
        memory.alloc(),
        net.inputs,
        latches.as_slice(),
        net.gates.as_slice(),
        net.observed.as_slice(),
    );
    sealed(memory, circuit)
}

/// Returns the positions of the latches that aren't of a class.
fn others(memory: &mut Memory, net: &Net, class: u32) -> Vec<u32> {
    let mut positions = memory.nothing();
    for place in 0..net.many_latches() {
        if net.latch(place).class != class {
            memory.push(&mut positions, place);
        }
    }
    positions
}

/// Returns the latch of a class for one that a move left or made.
fn moved_latch(net: &Net, class: u32, latch: &DraftLatch) -> ClassLatch {
    let known = match latch.origin {
        Some(origin) => net.latch(origin),
        None => ClassLatch {
            class,
            ..ClassLatch::NONE
        },
    };
    ClassLatch {
        next: latch.next,
        reset: match latch.reset {
            DraftReset::Zero | DraftReset::Any => Reset::Zero,
            DraftReset::One => Reset::One,
            DraftReset::Free => Reset::Free,
        },
        ..known
    }
}

/// Returns the replacement for a literal that is read by properties or classes.
fn standing(net: &Net, stands: &[Literal], lit: Literal) -> Literal {
    let place = net.place(lit.var()) as usize;
    if place < stands.len() {
        stands[place].signed_as(lit)
    } else {
        lit
    }
}

/// Marks what the values of latches that went are made of. By variable, from 1 on, these are the
/// latches that a map reads at other places than their own.
fn mark_made(map: &NumberMap, stays: &[bool], made: &mut [bool]) {
    map.mark_read(made);
    for place in 0..number(map.outputs.len()) {
        if !has_mark(stays, place) {
            let own = literal_at(map.outputs.as_slice(), place as usize);
            put_if_covered(made, own.var() as usize, true);
        }
    }
}

/// Marks by place the latches that stay as they are.
fn mark_staying(latches: &[DraftLatch], map: &NumberMap, stays: &mut [bool]) {
    let mut var = 1u32;
    for latch in latches {
        if let Some(origin) = latch.origin {
            let own = literal_at(map.outputs.as_slice(), origin as usize);
            set_mark(stays, origin, own == Literal::of(var));
        }
        var = var.wrapping_add(1);
    }
}

/// Marks the first latches, by variable from 1 on, that take part in a move. These went, or the
/// values of those that went are made of them.
fn mark_moved(
    memory: &mut Memory,
    net: &Net,
    latches: &[DraftLatch],
    map: &NumberMap,
    moved: &mut [bool],
) {
    let mut stays = memory.table(false, net.latches.len());
    let mut made = memory.table(false, latches.len().saturating_add(1));
    mark_staying(latches, map, stays.as_mut_slice());
    mark_made(map, stays.as_slice(), made.as_mut_slice());
    for place in 0..net.many_latches() {
        if !has_mark(stays.as_slice(), place) {
            set_mark(moved, net.latch(place).value.var(), true);
        }
    }
    let mut var = 1u32;
    for latch in latches {
        if let (Some(origin), true) = (latch.origin, has_mark(made.as_slice(), var)) {
            set_mark(moved, net.latch(origin).value.var(), true);
        }
        var = var.wrapping_add(1);
    }
}

/// Returns the map of a draft, of which the latches it leads from are counted.
pub(crate) fn map_of(memory: &mut Memory, drafted: &mut Drafted) -> NumberMap {
    NumberMap {
        inputs: number(drafted.latches.len()),
        gates: std::mem::replace(&mut drafted.map_gates, memory.nothing()),
        outputs: std::mem::replace(&mut drafted.map_outputs, memory.nothing()),
        constraints: memory.nothing(),
    }
}

/// Returns the circuit of classes after latches of a class moved.
fn net_after(memory: &mut Memory, net: &Net, class: u32, drafted: &mut Drafted) -> Net {
    let mut after = Net {
        inputs: net.inputs,
        latches: memory.list(drafted.latches.len()),
        gates: std::mem::replace(&mut drafted.gates, memory.nothing()),
        observed: memory.list(net.observed.len()),
        properties: net.properties,
        classes: net.classes,
    };
    for latch in &drafted.latches {
        memory.push(&mut after.latches, moved_latch(net, class, latch));
    }
    for lit in &net.observed {
        let own = standing(net, drafted.stands.as_slice(), *lit);
        memory.push(&mut after.observed, own);
    }
    after
}

/// Latches of a class that moved: the circuit after it, the map of its states to those before, and
/// the number of frames.
#[derive(Drop)]
pub(crate) struct MovedClass {
    pub net: Net,
    pub map: NumberMap,
    pub frames: u32,
}

/// Moves the latches of a class, if that leaves fewer. Marks the first latches that take part.
pub(crate) fn move_class(
    memory: &mut Memory,
    net: &Net,
    class: u32,
    options: &MoveOptions,
    moved: &mut [bool],
) -> Option<MovedClass> {
    let circuit = circuit_of(memory, net)?;
    let positions = others(memory, net, class);
    let keep = held_at(memory, &circuit, positions.as_slice());
    let mut drafted = frames_of(memory, &circuit, &keep, options)?;
    let map = map_of(memory, &mut drafted);
    mark_moved(memory, net, drafted.latches.as_slice(), &map, moved);
    Some(MovedClass {
        net: net_after(memory, net, class, &mut drafted),
        map,
        frames: number(drafted.frames.len()),
    })
}
