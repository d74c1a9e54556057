//! What the seats at the counter know, and what each step tells. Of these types only `Plan` has
//! values.
use atomic_table::{Join, Play, Split, TableRule};
use std::collections::LinkedList;

/// How many numbers are jobs, and how many drawers share the counter.
#[derive(Clone, Copy, Drop)]
pub struct Plan {
    pub jobs: u64,
    pub drawers: u32,
}

/// The drawers for which a seat stands, and the numbers that it drew, in order.
pub struct Hand {
    pub parts: u64,
    pub drawn: LinkedList<u64>,
}

/// The rule of the counter.
pub struct Counter;

impl TableRule<(), Hand, Plan> for Counter {
    ghost use Rattle.std.specs.Prelude.{[]};
    ghost use Rattle.batch_pool.specs.Rule.{hand, IsGiven};

    ghost holds = { IsGiven };

    ghost first = { λ plan. hand plan.drawers [] };
}

/// One draw.
pub struct Draw;

impl Play<(), Hand> for Draw {
    ghost use Rattle.batch_pool.specs.Rule.{Drew};

    ghost then = { Drew };
}

/// A load by a seat that stands for all drawers.
pub struct Tally;

impl Play<(), Hand> for Tally {
    ghost use Rattle.batch_pool.specs.Rule.{Tallied};

    ghost then = { Tallied };
}

/// A seat for one drawer is cut off.
pub struct Deal;

impl Split<Hand> for Deal {
    ghost use Rattle.std.specs.Prelude.{◌-◌, []};
    ghost use Rattle.batch_pool.specs.Rule.{hand, dealt, one_drawer};

    ghost left = { dealt };

    ghost right = { one_drawer };
}

/// A seat takes in what another drew.
pub struct Collect;

impl Join<Hand> for Collect {
    ghost use Rattle.std.specs.Prelude.{[]};
    ghost use Rattle.batch_pool.specs.Rule.{hand, together};

    ghost both = { together };

    ghost spent = { hand 0 [] };
}
