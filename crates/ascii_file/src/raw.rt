/// A latch by the numbers of its line. A reset that is left out is 0.
#[derive(Clone, Copy)]
pub struct RawLatch {
    pub current: u32,
    pub next: u32,
    pub reset: u32,
}

/// A gate by the numbers of its line.
#[derive(Clone, Copy)]
pub struct RawGate {
    pub lhs: u32,
    pub rhs0: u32,
    pub rhs1: u32,
}

/// What a symbol names: the position in the symbol's line counts things of its kind.
#[derive(Clone, Copy)]
pub enum SymbolKind {
    Input,
    Latch,
    Output,
    Bad,
    Constraint,
    /// A justice property, not one of its literals.
    Justice,
    Fairness,
}

/// The sections of a file after its header, in their order. Sections with lines that are alike, in
/// form and in checks, are one: the header's numbers part them.
#[derive(Clone, Copy, PartialEq, Eq)]
pub enum Section {
    Inputs,
    Latches,
    /// Outputs, bad states, constraints: a literal each.
    Safety,
    /// The number of literals of each justice property.
    Sizes,
    /// The literals of all justice properties, and then the fairness literals.
    Liveness,
    Gates,
    Symbols,
}
