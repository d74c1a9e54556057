//! The counter that the workers draw from, and its drawers.
use batch_pool::{Drawer, Draws};
use std::alloc::Global;
use std::test::*;

/// Returns true if these are three drawers, each at its place.
fn are_three_in_place(drawers: &[Drawer]) -> bool {
    match drawers {
        [first, second, third] => {
            first.worker() == 0 && second.worker() == 1 && third.worker() == 2
        }
        _ => false,
    }
}

fn has_three_drawers(alloc: Global) -> bool {
    match Draws::new(alloc, 2, 3) {
        Ok((draws, drawers)) => {
            let placed = are_three_in_place(drawers.as_slice());
            drop(drawers);
            drop(draws);
            placed
        }
        Err(_) => false,
    }
}

#[test]
fn gives_each_drawer_its_place(rt: HostRuntime) {
    assert!(rt; has_three_drawers(rt.alloc()));
}
