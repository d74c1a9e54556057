ghost use Rattle.std.specs.Prelude.{List};
ghost use Rattle.aig_graph.specs.Graph.{Graph};
ghost use Rattle.ascii_file.specs.declared.header.Header.{Header};
ghost use Rattle.ascii_file.specs.Raw.{RawSymbol};
ghost use Rattle.ascii_file.specs.parts.Lists.{Lists};
ghost use Rattle.ascii_file.specs.parts.Parts.{NetlistLaw};

/// A graph, properties and symbols make a circuit, in the numbers that the header says. The
/// literals of the properties are in the graph's range, and each symbol names a thing of its own.
pub fn netlist_law()
    ensures { (h : Header) (g : Graph) (symbols : List RawSymbol) (l : Lists)
        → NetlistLaw h g symbols l }
{}
