ghost use Rattle.aig_graph.specs.Circuits.{Netlist};
ghost use Rattle.file_words.specs.declared.spelling.Spelling.{Spelling as SpellingOf};
ghost use Rattle.aig_binary.specs.Laws.{SpellingLaw, BinaryRoundTripLaw};

/// Each text of a circuit is of its spelling, and is read as that circuit. The circuit has to be
/// within the limits of a header, with no newline in its names. So both texts of a circuit are read
/// as one circuit.
pub fn spelling_law()
    ensures { (spelling : SpellingOf) (c : Netlist) → SpellingLaw spelling c }
{}

/// The binary text of a circuit within the limits of a header, whose names hold no newline, is read
/// as that circuit.
pub fn round_trip_law()
    ensures { (c : Netlist) → BinaryRoundTripLaw c }
{}
