//! The standard streams of a run, which it lends to its steps as one value.

/// The standard streams, and whether standard error is a terminal.
#[derive(Drop)]
pub struct Streams<I, O, E> {
    pub stdin: I,
    pub out: O,
    pub err: E,
    /// Whether standard error is a terminal, which is told more.
    pub is_terminal: bool,
}
