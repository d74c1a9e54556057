//! The judge of registers that moved past an enable, on circuits that were worked by hand.
use aag_text::read_aag;
use aig_graph::hold;
use class_circuits::is_moved_on;
use std::alloc::Global;
use std::test::*;

/// A circuit, what it becomes, and the map of its states, as files.
#[derive(Clone, Copy)]
struct Files {
    read: &'static [u8],
    written: &'static [u8],
    map: &'static [u8],
}

/// Two registers with one enable, and one behind the gate that reads both.
const ENABLE: Files = Files {
    read: b"aag 12 3 2 1 7\n2\n4\n6\n8 17\n10 23\n24\n12 6 2\n14 8 7\n16 15 13\n18 6 4\n20 10 7\n22 21 19\n24 10 8\n",
    written: b"aag 8 3 1 1 4\n2\n4\n6\n8 17\n8\n10 4 2\n12 8 7\n14 10 6\n16 15 13\n",
    map: b"aag 3 2 0 1 1\n2\n4\n6\n6 4 2\n",
};

/// The enable is a register, which comes first then.
const OF_REGISTER: Files = Files {
    read: b"aag 13 3 3 1 7\n2\n4\n6\n8 19\n10 25\n12 6\n26\n14 12 2\n16 13 8\n18 17 15\n20 12 4\n22 13 10\n24 23 21\n26 10 8\nl2 go\n",
    written: b"aag 9 3 2 1 4\n2\n4\n6\n8 6\n10 19\n10\n12 4 2\n14 10 9\n16 12 8\n18 17 15\nl0 go\n",
    map: b"aag 4 3 0 2 1\n2\n4\n6\n6\n8\n8 4 2\n",
};

/// Returns what the judge says if these positions are held.
fn said(alloc: Global, files: Files, positions: &[u32], bound: Option<u32>) -> Option<bool> {
    let read = read_aag(alloc, files.read).ok()?;
    let written = read_aag(alloc, files.written).ok()?;
    let map = read_aag(alloc, files.map).ok()?;
    let keep = hold(alloc, &read, &[], positions).ok()?;
    is_moved_on(alloc, &read, &keep, bound, &written, &map).ok()
}

/// Returns true if what was worked is taken, but not under a bound, with a held register, or with
/// the map of another circuit.
fn judges_moves(alloc: Global) -> bool {
    let other = Files {
        map: b"aag 3 2 0 1 1\n2\n4\n6\n6 5 2\n",
        ..ENABLE
    };
    let same = Files {
        written: ENABLE.read,
        map: b"aag 2 2 0 2 0\n2\n4\n2\n4\n",
        ..ENABLE
    };
    (said(alloc, ENABLE, &[], None) == Some(true))
        & (said(alloc, ENABLE, &[], Some(3)) == Some(true))
        & (said(alloc, ENABLE, &[], Some(2)) == Some(false))
        & (said(alloc, ENABLE, &[0], None) == Some(false))
        & (said(alloc, other, &[], None) == Some(false))
        & (said(alloc, same, &[], None) == Some(false))
}

/// Returns true if a held register is found at its new position, by its name.
fn judges_held(alloc: Global) -> bool {
    let unnamed = Files {
        written: b"aag 9 3 2 1 4\n2\n4\n6\n8 6\n10 19\n10\n12 4 2\n14 10 9\n16 12 8\n18 17 15\nl1 go\n",
        ..OF_REGISTER
    };
    (said(alloc, OF_REGISTER, &[2], None) == Some(true))
        & (said(alloc, OF_REGISTER, &[1], None) == Some(false))
        & (said(alloc, unnamed, &[2], None) == Some(false))
        & (said(alloc, unnamed, &[], None) == Some(true))
}

#[test]
fn judges_registers_as_worked_by_hand(rt: HostRuntime) {
    assert!(rt; judges_moves(rt.alloc()));
    assert!(rt; judges_held(rt.alloc()));
}
