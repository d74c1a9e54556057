//! The ways in which each latch holds its value. There can be several, one within the other: so
//! there is a candidate for each depth at which a walk finds another hold.

use crate::literals::{is_constant, literal_of};
use crate::nearness::{MOST_STEPS, Nearness};
use crate::outers::add_outer;
use crate::settling::settle;
use crate::sharing::Sharing;
use crate::walks::{Split, Walk};
use aig_graph::{Aig, Circuit, Gate, Keep, Memory, Reset};
use backward_sets::{Literal, Pair, number};

/// A way in which a latch holds.
#[derive(Clone, Copy)]
pub(crate) struct Candidate {
    /// The latch's position.
    pub latch: u32,
    /// The latch's literal.
    pub own: Literal,
    pub split: Split,
    /// The number of latches that have this hold as a candidate.
    pub many: u32,
}

/// The gates of a circuit with those of holds and loads, and the candidates of its latches, which
/// rise.
pub struct Candidates {
    pub(crate) sharing: Sharing,
    pub(crate) list: Vec<Candidate>,
    /// These, and those of outer parts of their holds.
    pub(crate) outer: Vec<Candidate>,
}

impl Drop for Candidates {
    // written out: docs/PROOFS.md, Drops and exits
    fn drop(self) {
        let Candidates {
            sharing: _sharing,
            list: _list,
            outer: _outer,
        } = self;
    }
}

/// Returns gates as pairs.
fn pairs_of(memory: &mut Memory, gates: &[Gate]) -> Vec<Pair> {
    let mut pairs = memory.list(gates.len());
    for gate in gates {
        let pair = Pair {
            larger: literal_of(gate.rhs0),
            smaller: literal_of(gate.rhs1),
        };
        memory.push(&mut pairs, pair);
    }
    pairs
}

/// Returns true if one of the candidates from `first` on has this hold.
fn has_hold(list: &[Candidate], first: usize, split: &Split) -> bool {
    for place in first..list.len() {
        if list[place].split.hold == split.hold {
            return true;
        }
    }
    false
}

/// Adds the candidates of a latch to which the walk has turned: one for each hold, that of the
/// least depth first.
fn add_candidates(
    memory: &mut Memory,
    walk: &mut Walk,
    list: &mut Vec<Candidate>,
    latch: u32,
    next: Literal,
) {
    let first = list.len();
    for depth in walk.near.steps(next.var())..MOST_STEPS + 1 {
        let split = walk.split(memory, next, depth);
        if !is_constant(split.hold) && !has_hold(list.as_slice(), first, &split) {
            let candidate = Candidate {
                latch,
                own: walk.own(),
                split,
                many: 0,
            };
            memory.push(list, candidate);
        }
    }
}

/// Adds the candidates of all latches that may move.
fn add_all(
    memory: &mut Memory,
    walk: &mut Walk,
    list: &mut Vec<Candidate>,
    aig: &Aig,
    keep: &Keep,
) {
    let latches = aig.latches();
    for place in 0..latches.len() {
        let position = number(place);
        let own = aig.first_latch().wrapping_add(position);
        let next = literal_of(latches[place].next);
        let may_move = latches[place].reset != Reset::Free && !keep.has(position);
        if may_move && walk.begin(own, next) {
            add_candidates(memory, walk, list, position, next);
        }
    }
}

/// Returns the candidates as keys: the hold of each, then its place.
fn keys_of(memory: &mut Memory, list: &[Candidate]) -> Vec<u64> {
    let mut keys = memory.list(list.len());
    for place in 0..list.len() {
        let hold = u64::from(list[place].split.hold.code);
        memory.push(&mut keys, hold << 32 | u64::from(number(place)));
    }
    keys
}

/// Returns the end of the run of keys with one hold that begins at `first`.
fn end_of_run(keys: &[u64], first: usize) -> usize {
    let mut end = first;
    for place in first..keys.len() {
        if keys[place] >> 32 != keys[first] >> 32 {
            break;
        }
        end = place.wrapping_add(1);
    }
    end
}

/// Sets the number of latches of the candidate that has a key.
fn set_many(list: &mut [Candidate], key: u64, many: u32) {
    let place = (key & 0xffff_ffff) as usize;
    if place < list.len() {
        list[place].many = many;
    }
}

/// Counts for each candidate those with its hold, if the keys rise.
fn count_holds(list: &mut [Candidate], keys: &[u64]) {
    let mut end = 0usize;
    let mut many = 0u32;
    for place in 0..keys.len() {
        if place >= end {
            end = end_of_run(keys, place);
            many = number(end.wrapping_sub(place));
        }
        set_many(list, keys[place], many);
    }
}

/// Returns a walk over the gates of a circuit.
fn walk_of(memory: &mut Memory, aig: &Aig) -> Walk {
    let first_gate = aig.first_gate();
    let pairs = pairs_of(memory, aig.gates());
    let near = Nearness::new(memory, first_gate, pairs.len());
    let mut sharing = Sharing::new(memory, first_gate, 0);
    sharing.put_all(memory, pairs.as_slice());
    Walk::new(memory, sharing, near)
}

/// Counts for each candidate those with its hold.
fn count_all(memory: &mut Memory, list: &mut Vec<Candidate>) {
    let mut keys = keys_of(memory, list.as_slice());
    keys.sort_unstable();
    count_holds(list.as_mut_slice(), keys.as_slice());
}

/// Returns candidates with those of outer parts of their holds.
fn with_outer(memory: &mut Memory, sharing: &mut Sharing, list: &[Candidate]) -> Vec<Candidate> {
    let mut all = memory.list(list.len());
    for candidate in list {
        memory.push(&mut all, *candidate);
        add_outer(memory, sharing, &mut all, candidate);
    }
    all
}

/// Returns the ways in which the latches of a circuit hold that aren't held back by `keep`.
pub fn candidates_of(memory: &mut Memory, circuit: &Circuit, keep: &Keep) -> Candidates {
    let aig = circuit.aig();
    let mut walk = walk_of(memory, aig);
    let mut list = memory.nothing();
    add_all(memory, &mut walk, &mut list, aig, keep);
    let mut sharing = walk.into_sharing();
    settle(memory, &mut sharing, list.as_mut_slice());
    let mut outer = with_outer(memory, &mut sharing, list.as_slice());
    count_all(memory, &mut list);
    count_all(memory, &mut outer);
    Candidates {
        sharing,
        list,
        outer,
    }
}
