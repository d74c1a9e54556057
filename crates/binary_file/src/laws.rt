ghost use Rattle.std.specs.Prelude.{ℕ, List, ◌<◌, ◌^◌};
ghost use Rattle.binary_file.specs.Laws.{CountsLaw, BinaryPiecesLaw, BinaryReadingLaw, DeltaLaws, EndsOnce};

/// Bytes are read, byte by byte, as a circuit if and only if they are a binary file of a raw
/// circuit. What is read is then the circuit of that raw circuit, as listed. Otherwise it is a
/// fault of the bytes.
pub fn reading_law()
    ensures { (bytes : List ℕ) → BinaryReadingLaw bytes }
{}

/// Bytes that come in pieces are fed one after the other, wherever they are cut, also inside a
/// delta. A fault of what was fed is the fault of the whole, whatever follows.
pub fn pieces_law()
    ensures { (bytes more : List ℕ) → BinaryPiecesLaw bytes more }
{}

/// A binary file has as many items of each section as its header says.
pub fn counts_law()
    ensures { (bytes : List ℕ) → CountsLaw bytes }
{}

/// The bytes of a number below 2^35 are a delta that spells it, and none that does is shorter. Of
/// bytes that go on, just one beginning is a delta.
pub fn delta_laws()
    ensures spelled { (n : ℕ) → n < 2 ^ 35 → DeltaLaws n }
    ensures once { (first second rest other : List ℕ) → EndsOnce first second rest other }
{}
