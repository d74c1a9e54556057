//! What a check answers.
use aig_graph::{Props, Sequence};

/// What a check answers.
#[derive(Drop)]
pub enum Answer {
    /// The second circuit is a retiming of the first, by this map. Of each free latch of the second
    /// its place, from 0, among the free latches of the first.
    Retiming(Sequence<u32>),
    /// The first that sharing gates doesn't show. The circuit may still be a retiming.
    NotShown(Obligation),
}

/// What sharing gates doesn't show; each is counted from 0 among those of its kind.
#[derive(Clone, Copy, Debug, PartialEq, Eq)]
pub enum Obligation {
    /// At step 0 this constraint of the map is 1.
    ConstraintAtReset(usize),
    /// At step 0 this output of the map is what this latch of the second circuit holds. If the
    /// latch is free, the output is a free latch of the first, which comes after those of the free
    /// latches before it.
    LatchAtReset(usize),
    /// This constraint of the map stays 1.
    Constraint(usize),
    /// After a step this output of the map is what this latch of the second circuit holds.
    Latch(usize),
    /// This output has one value in both circuits.
    Output(usize),
    /// This bad state has one value in both circuits.
    Bad(usize),
    /// This invariant constraint has one value in both circuits.
    Invariant(usize),
    /// This justice property has one value in both circuits.
    Justice(usize),
    /// This fairness constraint has one value in both circuits.
    Fairness(usize),
}

/// Returns the place among `count`, if it is one of them. Otherwise it becomes what is left of it
/// after them.
fn among(place: &mut usize, count: usize) -> Option<usize> {
    if *place < count {
        return Some(*place);
    }
    *place -= count;
    None
}

impl Obligation {
    /// Returns the part with this number of a step: of the map's constraints and outputs, and then
    /// of the properties, kind after kind.
    pub(crate) fn of_part(props: &Props, map: &Props, part: usize) -> Obligation {
        let mut left = part;
        if let Some(place) = among(&mut left, map.constraints.len()) {
            return Obligation::Constraint(place);
        }
        if let Some(place) = among(&mut left, map.outputs.len()) {
            return Obligation::Latch(place);
        }
        Obligation::of_property(props, left)
    }

    /// Returns the property literal with this number, kind after kind.
    pub fn of_property(props: &Props, number: usize) -> Obligation {
        let mut left = number;
        if let Some(place) = among(&mut left, props.outputs.len()) {
            return Obligation::Output(place);
        }
        if let Some(place) = among(&mut left, props.bad.len()) {
            return Obligation::Bad(place);
        }
        if let Some(place) = among(&mut left, props.constraints.len()) {
            return Obligation::Invariant(place);
        }
        for (place, lits) in props.justice.as_slice().iter().enumerate() {
            if among(&mut left, lits.len()).is_some() {
                return Obligation::Justice(place);
            }
        }
        Obligation::Fairness(left)
    }
}
