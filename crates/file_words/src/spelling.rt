/// The two forms of the AIGER 1.9 note.
#[derive(Clone, Copy, Debug, PartialEq, Eq)]
pub enum Spelling {
    /// Begins with `aag`: all numbers stand on lines.
    Ascii,
    /// Begins with `aig`: inputs aren't listed, and gates are deltas.
    Binary,
}
