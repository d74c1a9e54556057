//! Which places of a region are connected: a forest in which each place points to itself or to an
//! earlier place of its component.
//!
//! Each worker makes the part of the forest over a range of places. It joins the gates there with
//! those fan-ins that are there too, and lists the others; the calling thread then joins these.
//! Most gates read what stands a little before them, so the lists are short.

use crate::ranges::border;
use aig_graph::Memory;
use checked_tables::{entry_or, put_if_there};
use std::alloc::{AllocError, Global};
use std::thread::Threads;
use std::{mem, thread};
use unit_starts::{Region, narrow};

/// Two places that are connected.
#[derive(Clone, Copy)]
struct Pair {
    early: u32,
    late: u32,
}

/// Returns the place that `place` points to in the part of a forest that begins at `first`. A place
/// outside of it points to itself.
fn above(forest: &[u32], first: u32, place: u32) -> u32 {
    let at = place.wrapping_sub(first) as usize;
    entry_or(forest, at, place)
}

/// Lets `place` point to `above`, if it is in the part of the forest.
fn point(forest: &mut [u32], first: u32, place: u32, above: u32) {
    let at = place.wrapping_sub(first) as usize;
    put_if_there(forest, at, above);
}

/// Returns the root of the tree of `place`. On the way there every second place is made to point to
/// the next but one, so trees stay flat.
fn top(forest: &mut [u32], first: u32, place: u32) -> u32 {
    let mut at = place;
    for _ in 0..u32::MAX {
        let next = above(forest, first, at);
        if next == at {
            return at;
        }
        let after = above(forest, first, next);
        point(forest, first, at, after);
        at = after;
    }
    at
}

/// Joins the trees of the places `a` and `b`: the larger root then points to the smaller one.
fn join(forest: &mut [u32], first: u32, a: u32, b: u32) {
    if above(forest, first, a) != above(forest, first, b) {
        let a = top(forest, first, a);
        let b = top(forest, first, b);
        point(forest, first, a.max(b), a.min(b));
    }
}

/// The part of a forest from the place `first` on, and the fan-ins before `first` of gates in it.
#[derive(Drop)]
struct Stretch {
    memory: Memory,
    first: u32,
    above: Vec<u32>,
    before: Vec<Pair>,
}

impl Stretch {
    /// Joins the gate at `own` with its fan-in at `place`, or lists the pair if the fan-in comes
    /// before the first place.
    fn join_fan_in(&mut self, own: u32, place: u32) {
        if place < self.first {
            let pair = Pair {
                early: place,
                late: own,
            };
            self.memory.push(&mut self.before, pair);
        } else {
            join(self.above.as_mut_slice(), self.first, place, own);
        }
    }

    /// Joins each passable gate of this part with its fan-ins.
    fn join_gates(&mut self, region: &Region) {
        for at in 0..self.above.len() {
            let own = self.first.wrapping_add(narrow(at));
            let number = region.gate_number(own as usize);
            if region.is_passable(own as usize) && number < region.gates.len() {
                let gate = &region.gates[number];
                self.join_fan_in(own, region.place(gate.rhs1));
                self.join_fan_in(own, region.place(gate.rhs0));
            }
        }
    }

    /// Returns the stretch of worker `worker` among `workers` workers, with its gates joined. The
    /// first one has room for all places, since the others are appended to it.
    fn of_worker(alloc: Global, region: &Region, worker: usize, workers: usize) -> Stretch {
        let places = region.places();
        let first = border(worker, workers, places);
        let end = border(worker.saturating_add(1), workers, places);
        let room = if worker == 0 {
            places
        } else {
            end.saturating_sub(first)
        };
        let mut memory = Memory::of(alloc);
        let mut above = memory.list(room);
        for place in first..end {
            memory.push(&mut above, narrow(place));
        }
        let mut stretch = Stretch {
            memory,
            first: narrow(first),
            above,
            before: Vec::new(alloc),
        };
        stretch.join_gates(region);
        stretch
    }

    /// Appends this stretch to the forest of all places before it, and joins the pairs that it
    /// lists. An empty forest becomes this stretch.
    fn append_to(&mut self, memory: &mut Memory, forest: &mut Vec<u32>) {
        memory.refuse_if(self.memory.is_refused());
        if forest.is_empty() {
            mem::swap(forest, &mut self.above);
        } else if forest.append(&mut self.above).is_err() {
            memory.refuse();
        }
        for k in 0..self.before.len() {
            let pair = self.before[k];
            join(forest.as_mut_slice(), 0, pair.early, pair.late);
        }
    }
}

/// A forest, and the number of workers that made a stretch of it.
#[derive(Drop)]
pub(crate) struct Forest {
    pub above: Vec<u32>,
    pub workers: usize,
}

/// Joins stretches that come one after another into one forest.
fn joined(memory: &mut Memory, stretches: Result<Vec<Stretch>, AllocError>) -> Forest {
    let Ok(mut stretches) = stretches else {
        return Forest {
            above: memory.refused_list(),
            workers: 0,
        };
    };
    let mut above = memory.nothing();
    for k in 0..stretches.len() {
        stretches[k].append_to(memory, &mut above);
    }
    Forest {
        above,
        workers: stretches.len(),
    }
}

/// Returns the forest of a region's components, made by `workers` workers; it has 4 bytes a latch
/// and gate. The first place of a component points to itself, each other one to an earlier place of
/// its component.
pub(crate) fn forest_of<R: Threads + Sync>(
    rt: &R,
    memory: &mut Memory,
    region: &Region,
    workers: usize,
) -> Forest {
    let alloc = memory.alloc();
    let work = |worker: usize| -> Stretch { Stretch::of_worker(alloc, region, worker, workers) };
    joined(memory, thread::map_indices(rt, alloc, workers, &work))
}
