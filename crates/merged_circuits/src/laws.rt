ghost use Rattle.std.specs.Prelude.{ℕ, List};
ghost use Rattle.aig_graph.specs.Circuits.{Netlist};
ghost use Rattle.aig_graph.specs.Graph.{Graph};
ghost use Rattle.certificates.specs.declared.merged.MergedLatch.{MergedLatch};
ghost use Rattle.merged_circuits.specs.Laws.{HasItsValue, KeepsStreams, SaysOneReading, ShownInductive};

/// By a reading that steps preserve each latch has at each step the value of its reading. A circuit
/// merged by one has the streams of the circuit, with each free latch in its place. Signatures that
/// are always equal in the merged graph show that steps preserve a reading. Lines say one reading.
pub fn merging_laws()
    ensures values { (g : Graph) (held reads : List ℕ) → HasItsValue g held reads }
    ensures streams { (held reads : List ℕ) (c d : Netlist) → KeepsStreams held reads c d }
    ensures shown { (g : Graph) (held reads : List ℕ) → ShownInductive g held reads }
    ensures one_reading { (g : Graph) (lines : List MergedLatch) (reads other : List ℕ)
        → SaysOneReading g lines reads other }
{}
