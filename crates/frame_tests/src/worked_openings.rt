//! Circuits that are opened as was worked out by hand: what their latches load, what they hold by,
//! and the gates that are left.
use aag_text::read_aag;
use aig_graph::{Circuit, Keep, Memory, property_literals};
use hold_drafts::{Opening, Way, candidates_of, opened};
use std::alloc::Global;
use std::test::*;

/// What a circuit is to be opened to: codes of literals, those of gates in pairs.
#[derive(Clone, Copy)]
struct Wanted<'a> {
    holds: &'a [u32],
    loads: &'a [u32],
    gates: &'a [u32],
}

fn has_code(codes: &[u32], place: usize, code: u32) -> bool {
    place < codes.len() && codes[place] == code
}

fn has_holds(opening: &Opening, holds: &[u32]) -> bool {
    for place in 0..opening.holds.len() {
        if !has_code(holds, place, opening.holds[place].code) {
            return false;
        }
    }
    opening.holds.len() == holds.len()
}

fn has_loads(opening: &Opening, loads: &[u32]) -> bool {
    for place in 0..opening.latches.len() {
        if !has_code(loads, place, opening.latches[place].load.code) {
            return false;
        }
    }
    opening.latches.len() == loads.len()
}

fn has_gates(opening: &Opening, gates: &[u32]) -> bool {
    for place in 0..opening.gates.len() {
        let pair = opening.gates[place];
        let at = place.wrapping_mul(2);
        if !has_code(gates, at, pair.larger.code)
            || !has_code(gates, at.wrapping_add(1), pair.smaller.code)
        {
            return false;
        }
    }
    opening.gates.len().wrapping_mul(2) == gates.len()
}

fn is_opened(alloc: Global, circuit: &Circuit, way: Way, wanted: Wanted) -> bool {
    let mut memory = Memory::of(alloc);
    let Ok(properties) = property_literals(alloc, circuit.props()) else {
        return false;
    };
    let lits = properties.as_slice();
    let keep = Keep::none();
    let candidates = candidates_of(&mut memory, circuit, &keep);
    let opening = opened(&mut memory, circuit, lits, &keep, &candidates, way, None);
    let is_wanted = has_holds(&opening, wanted.holds)
        && has_loads(&opening, wanted.loads)
        && has_gates(&opening, wanted.gates);
    is_wanted & !memory.is_refused()
}

fn opens(alloc: Global, text: &[u8], way: Way, wanted: Wanted) -> bool {
    match read_aag(alloc, text) {
        Ok(circuit) => is_opened(alloc, &circuit, way, wanted),
        Err(_) => false,
    }
}

/// Two registers with one enable, and their conjunction.
const ENABLE: &[u8] =
    b"aag 12 3 2 1 7\n2\n4\n6\n8 17\n10 23\n24\n12 6 2\n14 8 7\n16 15 13\n18 6 4\n20 10 7\n22 21 19\n24 10 8\n";

#[test]
fn latches_load_what_is_enabled(rt: HostRuntime) {
    let wanted = Wanted {
        holds: &[7],
        loads: &[2, 4],
        gates: &[10, 8],
    };
    assert!(rt; opens(rt.alloc(), ENABLE, Way::Pairs, wanted));
}

/// The enable of the second register is that of the first, inverted.
const INVERTED: &[u8] =
    b"aag 12 3 2 1 7\n2\n4\n6\n8 17\n10 23\n24\n12 6 2\n14 8 7\n16 15 13\n18 7 4\n20 10 6\n22 21 19\n24 10 8\n";

#[test]
fn holds_differ_by_sign(rt: HostRuntime) {
    let wanted = Wanted {
        holds: &[],
        loads: &[17, 23],
        gates: &[6, 2, 8, 7, 15, 13, 7, 4, 10, 6, 21, 19, 10, 8],
    };
    assert!(rt; opens(rt.alloc(), INVERTED, Way::Pairs, wanted));
}

/// Two registers that toggle by one input.
const TOGGLES: &[u8] =
    b"aag 10 1 2 1 7\n2\n4 13\n6 19 1\n20\n8 5 2\n10 4 3\n12 11 9\n14 7 2\n16 6 3\n18 17 15\n20 6 4\n";

#[test]
fn toggles_hold_nothing(rt: HostRuntime) {
    let wanted = Wanted {
        holds: &[],
        loads: &[13, 19],
        gates: &[5, 2, 4, 3, 11, 9, 7, 2, 6, 3, 17, 15, 6, 4],
    };
    assert!(rt; opens(rt.alloc(), TOGGLES, Way::Pairs, wanted));
}

/// Two registers with one enable, and a reset before it.
const RESET: &[u8] =
    b"aag 15 4 2 1 9\n2\n4\n6\n8\n10 20\n12 28\n30\n14 6 2\n16 10 7\n18 17 15\n20 19 9\n22 6 4\n24 12 7\n26 25 23\n28 27 9\n30 12 10\n";

#[test]
fn latches_load_what_a_reset_leaves(rt: HostRuntime) {
    let wanted = Wanted {
        holds: &[16],
        loads: &[18, 20],
        gates: &[12, 10, 9, 7, 9, 2, 9, 4],
    };
    assert!(rt; opens(rt.alloc(), RESET, Way::Pairs, wanted));
}

/// Two registers that load `d & (enable | y)`.
const ENABLED_TWICE: &[u8] =
    b"aag 12 3 2 2 7\n2\n4\n6\n8 21\n10 25\n8\n10\n12 7 3\n14 13 4\n16 14 2\n18 8 3\n20 19 17\n22 10 3\n24 23 17\n";

#[test]
fn loads_are_simpler_where_they_are_enabled(rt: HostRuntime) {
    let wanted = Wanted {
        holds: &[3],
        loads: &[4, 4],
        gates: &[],
    };
    assert!(rt; opens(rt.alloc(), ENABLED_TWICE, Way::Pairs, wanted));
}

/// Two registers with an enable, and two that have another one besides.
const NESTED: &[u8] =
    b"aag 18 3 4 4 11\n2\n4\n6\n8 23\n10 27\n12 33\n14 37\n8\n10\n12\n14\n16 4 2\n18 6 2\n20 8 3\n22 21 19\n24 10 3\n26 25 19\n28 16 6\n30 17 12\n32 31 29\n34 17 14\n36 35 29\n";

#[test]
fn holds_are_those_of_both_enables(rt: HostRuntime) {
    let wanted = Wanted {
        holds: &[3, 17],
        loads: &[6, 6, 6, 6],
        gates: &[4, 2],
    };
    assert!(rt; opens(rt.alloc(), NESTED, Way::Pairs, wanted));
}

#[test]
fn outer_parts_of_holds_are_taken(rt: HostRuntime) {
    let wanted = Wanted {
        holds: &[3],
        loads: &[6, 6, 21, 25],
        gates: &[12, 5, 6, 4, 19, 17, 14, 5, 23, 19],
    };
    assert!(rt; opens(rt.alloc(), NESTED, Way::Outer, wanted));
}
