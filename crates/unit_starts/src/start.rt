//! One start of a circuit's first flow: the fan-ins from which gates take units.

use crate::left_units::LeftUnits;
use crate::region::Region;
use aig_graph::NoMemory;
use checked_tables::{entry_or, put_if_there};
use std::alloc::Global;

/// One of the two fan-ins of a gate, by their variables.
#[derive(Clone, Copy)]
pub(crate) enum FanIn {
    Smaller,
    Larger,
}

/// The place after a latch or a gate: if units leave there, if its unit is asked for, and if a unit
/// waits there.
#[derive(Clone, Copy)]
struct Spot {
    is_observed: bool,
    asked: bool,
    waits: bool,
}

impl Spot {
    /// Stands at a place that units don't leave.
    const NONE: Spot = Spot {
        is_observed: false,
        asked: false,
        waits: false,
    };
}

/// Sets the places from which units leave: each has the sink, and its unit is asked for.
fn put_sink(spots: &mut [Spot], leaving: &[bool]) {
    for place in 0..spots.len() {
        if place < leaving.len() {
            spots[place] = Spot {
                is_observed: leaving[place],
                asked: leaving[place],
                waits: false,
            };
        }
    }
}

/// Lets a unit come after a latch or a gate: from there it goes to the sink, or it waits. Returns
/// the number of units that have come to the sink, if it was `arrived`.
fn put_after(spots: &mut [Spot], place: usize, arrived: usize) -> usize {
    if place >= spots.len() {
        return arrived;
    }
    let leaves = spots[place].is_observed;
    spots[place].waits = !leaves;
    arrived.saturating_add(u32::from(leaves) as usize)
}

/// Lets no gate take a unit.
fn clear_taken(takes: &mut [Option<FanIn>]) {
    for gate in 0..takes.len() {
        takes[gate] = None;
    }
}

/// Lists the places at which units wait.
fn list_waiting(spots: &[Spot], left: &mut LeftUnits) {
    for place in 0..spots.len() {
        if spots[place].waits {
            left.push(place, false);
        }
    }
}

/// A start: the fan-in from which each gate takes a unit, and the spot after each variable, by
/// place from the first latch on. `arrived` units have come to the sink.
#[derive(Drop)]
pub(crate) struct Start {
    pub takes: Vec<Option<FanIn>>,
    spots: Vec<Spot>,
    pub arrived: usize,
}

impl Start {
    /// Returns the start in which a unit has come after each known latch, and no gate has taken
    /// one.
    pub(crate) fn new(alloc: Global, region: &Region) -> Result<Start, NoMemory> {
        let takes = vec![in alloc; None; region.gates.len()]?;
        let spots = vec![in alloc; Spot::NONE; region.leaving.len()]?;
        Ok(Start::begin(region, takes, spots))
    }

    /// Returns that start, made of tables that say nothing yet.
    fn begin(region: &Region, takes: Vec<Option<FanIn>>, spots: Vec<Spot>) -> Start {
        let mut spots = spots;
        let mut arrived = 0usize;
        put_sink(spots.as_mut_slice(), region.leaving);
        for place in 0..region.latches.len() {
            if region.is_known_latch(place) {
                arrived = put_after(spots.as_mut_slice(), place, arrived);
            }
        }
        Start {
            takes,
            spots,
            arrived,
        }
    }

    /// Begins anew over the region, in the tables of this start over it.
    pub(crate) fn again(self, region: &Region) -> Start {
        let Start { takes, spots, .. } = self;
        let mut takes = takes;
        clear_taken(takes.as_mut_slice());
        Start::begin(region, takes, spots)
    }

    /// Returns the places at which units wait.
    ///
    /// # Errors
    ///
    /// `NoMemory` if a list is refused.
    pub(crate) fn left(&self, alloc: Global) -> Result<LeftUnits, NoMemory> {
        let mut left = LeftUnits::none(alloc);
        list_waiting(self.spots.as_slice(), &mut left);
        left.complete()
    }

    /// Lets `gate` take the unit that waits at `place`, after its fan-in; it then comes after the
    /// gate's own place. Returns true if there was one.
    pub(crate) fn takes_from(
        &mut self,
        gate: usize,
        own: usize,
        fan_in: FanIn,
        place: usize,
    ) -> bool {
        let spots = self.spots.as_mut_slice();
        if place >= spots.len() || !spots[place].waits {
            return false;
        }
        spots[place].waits = false;
        self.arrived = put_after(spots, own, self.arrived);
        self.note(gate, Some(fan_in));
        true
    }

    /// Notes the fan-in from which a gate takes its unit.
    pub(crate) fn note(&mut self, gate: usize, taken: Option<FanIn>) {
        put_if_there(self.takes.as_mut_slice(), gate, taken);
    }

    /// Returns the fan-in from which a gate takes its unit.
    pub(crate) fn taken(&self, gate: usize) -> Option<FanIn> {
        entry_or(self.takes.as_slice(), gate, None)
    }

    /// Asks for the unit after `place`. Returns true if nobody has asked for it before.
    pub(crate) fn asks(&mut self, place: usize) -> bool {
        let spots = self.spots.as_mut_slice();
        if place >= spots.len() {
            return false;
        }
        let asked = spots[place].asked;
        spots[place].asked = true;
        !asked
    }

    /// Returns true if the unit after `place` is asked for.
    pub(crate) fn is_asked(&self, place: usize) -> bool {
        let spots = self.spots.as_slice();
        place < spots.len() && spots[place].asked
    }
}
