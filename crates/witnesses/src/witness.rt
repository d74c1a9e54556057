use aig_graph::Sequence;

/// A value of a latch or of an input.
#[derive(Clone, Copy)]
pub enum Digit {
    Zero,
    One,
    /// Either value does.
    Either,
}

/// A property of a circuit, by its number of its kind, from 0.
#[derive(Clone, Copy, Debug)]
pub enum Property {
    /// A bad state; in a circuit without bad states, an output.
    Bad(usize),
    /// A justice property.
    Justice(usize),
}

/// What latches hold at step 0, and inputs at each step, so that properties of a circuit fail.
#[derive(Drop)]
pub struct Witness {
    /// The properties that fail.
    pub properties: Sequence<Property>,
    /// What each latch holds at step 0.
    pub latches: Sequence<Digit>,
    /// The value of each input, step by step.
    pub inputs: Sequence<Sequence<Digit>>,
}

/// A property, and the step, from 0, at which it fails.
#[derive(Clone, Copy)]
pub struct Reached {
    pub property: Property,
    pub step: usize,
}
