ghost use Rattle.std.specs.Prelude.{ℕ, List};
ghost use Rattle.aig_graph.specs.Circuits.{Netlist};
ghost use Rattle.ascii_file.specs.Laws.{ReadingLaw, RoundTripLaw};
ghost use Rattle.ascii_file.specs.Pieces.{PiecesLaw};

/// Bytes are read, line by line, as a circuit if and only if they are a file of a raw circuit. What
/// is read is then the circuit of that raw circuit, with its gates in order. Otherwise it is a
/// fault of the bytes.
pub fn reading_law()
    ensures { (bytes : List ℕ) → ReadingLaw bytes }
{}

/// The text of a circuit within the limits of a header, whose names hold no newline, is read as
/// that circuit.
pub fn round_trip_law()
    ensures { (c : Netlist) → RoundTripLaw c }
{}

/// Reading bytes is feeding them, line by line, and closing. A fault of what was fed stays,
/// whatever follows.
pub fn pieces_law()
    ensures { (bytes more : List ℕ) → PiecesLaw bytes more }
{}
