//! Drafts of which each has one thing wrong: none is taken, and the circuit stays what it is.
use aag_text::read_aag;
use aig_graph::{Circuit, Keep, Memory};
use backward_moves::{Drafted, Staying};
use backward_retiming::move_as_drafted;
use backward_sets::{DraftLatch, DraftReset, Literal, Pair};
use std::alloc::Global;
use std::test::*;

/// A decoder of two inputs, whose first line starts at 1.
const DECODER: &[u8] =
    b"aag 10 2 4 4 4\n2\n4\n6 14 1\n8 16\n10 18\n12 20\n6\n8\n10\n12\n14 4 2\n16 5 2\n18 4 3\n20 5 3\n";

/// The codes of a draft of it with two latches. They are next literals, values at step 0, the
/// fan-ins of the gates, and the outputs of the map. The map's gates have these fan-ins too, but
/// for their first variable.
#[derive(Clone, Copy)]
struct Numbers {
    nexts: &'static [u32],
    ones: &'static [bool],
    larger: &'static [u32],
    smaller: &'static [u32],
    outputs: &'static [u32],
}

const RIGHT: Numbers = Numbers {
    nexts: &[2, 4],
    ones: &[true, true],
    larger: &[8, 9, 8, 9],
    smaller: &[6, 6, 7, 7],
    outputs: &[6, 8, 10, 12],
};

/// How many wrong drafts there are.
const WRONG: u32 = 7;

/// Returns a wrong draft by its number. One has a latch that starts otherwise, one a negated next
/// literal, one a gate with another sign, one two lines of the map swapped. Others have numbers
/// that are out of range: of a gate, of a latch, of an output.
fn wrong(place: u32) -> Numbers {
    let mut numbers = RIGHT;
    if place == 0 {
        numbers.ones = &[false, true];
    } else if place == 1 {
        numbers.nexts = &[3, 4];
    } else if place == 2 {
        numbers.larger = &[8, 8, 8, 9];
    } else if place == 3 {
        numbers.outputs = &[8, 6, 10, 12];
    } else if place == 4 {
        numbers.larger = &[10, 9, 8, 9];
    } else if place == 5 {
        numbers.nexts = &[2, 18];
    } else {
        numbers.outputs = &[6, 8, 10, 14];
    }
    numbers
}

fn literal_at(codes: &[u32], place: usize) -> Literal {
    Literal {
        code: if place < codes.len() { codes[place] } else { 0 },
    }
}

fn put_literals(codes: &[u32], literals: &mut [Literal]) {
    for place in 0..literals.len() {
        literals[place] = literal_at(codes, place);
    }
}

fn put_latches(numbers: &Numbers, latches: &mut [DraftLatch]) {
    for place in 0..latches.len() {
        let one = place < numbers.ones.len() && numbers.ones[place];
        latches[place] = DraftLatch {
            next: literal_at(numbers.nexts, place),
            reset: DraftReset::of(one),
            origin: None,
            held: false,
            name: 0,
            list: 0,
        };
    }
}

/// Puts gates over literals whose codes are so much less.
fn put_gates(numbers: &Numbers, less: u32, gates: &mut [Pair]) {
    for place in 0..gates.len() {
        gates[place] = Pair {
            larger: Literal {
                code: literal_at(numbers.larger, place).code.wrapping_sub(less),
            },
            smaller: Literal {
                code: literal_at(numbers.smaller, place).code.wrapping_sub(less),
            },
        };
    }
}

/// Returns a draft with as many latches and gates, which are all none.
fn blank(memory: &mut Memory) -> Drafted {
    Drafted {
        latches: memory.table(DraftLatch::NONE, 2),
        gates: memory.table(Pair::NONE, 4),
        stands: memory.table(Literal::FALSE, 8),
        map_gates: memory.table(Pair::NONE, 4),
        map_outputs: memory.table(Literal::FALSE, 4),
        frames: memory.nothing(),
        staying: Staying::NONE,
    }
}

/// Makes a draft that of these numbers.
fn fill(drafted: &mut Drafted, numbers: &Numbers) {
    put_latches(numbers, drafted.latches.as_mut_slice());
    put_gates(numbers, 0, drafted.gates.as_mut_slice());
    put_literals(&[10, 12, 14, 16, 0, 0, 0, 0], drafted.stands.as_mut_slice());
    put_gates(numbers, 4, drafted.map_gates.as_mut_slice());
    put_literals(numbers.outputs, drafted.map_outputs.as_mut_slice());
}

/// Returns true if a draft leaves `latches` latches of a circuit, and is shown or not as `is_shown`
/// says.
fn leaves_of(
    alloc: Global,
    circuit: Circuit,
    drafted: Drafted,
    latches: usize,
    is_shown: bool,
) -> bool {
    match move_as_drafted(alloc, circuit, &Keep::none(), None, drafted) {
        Ok(moved) => {
            let left = moved.circuit.aig().latches().len();
            let shown = moved.is_shown;
            drop(moved);
            (left == latches) & (shown == is_shown)
        }
        Err(_) => false,
    }
}

/// Returns true if a draft of these numbers leaves that of the decoder.
fn leaves(alloc: Global, numbers: &Numbers, latches: usize, is_shown: bool) -> bool {
    let mut drafted = blank(&mut Memory::of(alloc));
    fill(&mut drafted, numbers);
    match read_aag(alloc, DECODER) {
        Ok(circuit) => leaves_of(alloc, circuit, drafted, latches, is_shown),
        Err(_) => {
            drop(drafted);
            false
        }
    }
}

fn all_stay(alloc: Global) -> bool {
    let mut stay = true;
    for place in 0..WRONG {
        let stays = leaves(alloc, &wrong(place), 4, false);
        stay = stay & stays;
    }
    stay
}

#[test]
fn takes_no_wrong_draft(rt: HostRuntime) {
    let right = leaves(rt.alloc(), &RIGHT, 2, true);
    let wrong = all_stay(rt.alloc());
    assert!(rt; right & wrong);
}
