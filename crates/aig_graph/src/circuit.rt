//! Circuits, of which all literals and positions are in range. Each of their parts has a file of
//! its own.
ghost use Rattle.std.specs.Prelude.{◌≡◌};

use crate::graph::Aig;
use crate::properties::{Props, Symbols};
use std::marker::Model;

/// A sequential circuit: an and-inverter graph, its properties and its symbol table. Invariant:
/// every literal and every symbol position is in range.
pub struct Circuit {
    aig: Aig,
    props: Props,
    symbols: Symbols,
}

impl Drop for Circuit {
    // written out: docs/PROOFS.md, Drops and exits
    fn drop(self) {
        let Circuit {
            aig: _aig,
            props: _props,
            symbols: _symbols,
        } = self;
    }
}

impl Model for Circuit {
    ghost use Rattle.aig_graph.specs.Circuits.{Netlist, IsNetlist};

    ghost Value = { Netlist };

    ghost view = { λ c. record { aig = c.aig; props = c.props; symbols = c.symbols } };

    ghost invariant = { λ c. IsNetlist (record { aig = c.aig; props = c.props; symbols = c.symbols }) };
}

impl Circuit {
    ghost use Rattle.aig_graph.specs.Graph.{IsGraph};
    ghost use Rattle.aig_graph.specs.Circuits.{IsNetlist};

    /// Returns the circuit of these parts.
    pub fn new(aig: Aig, props: Props, symbols: Symbols) -> Circuit
        requires { IsNetlist (record { aig = aig; props = props; symbols = symbols }) }
        ensures { result ≡ record { aig = aig; props = props; symbols = symbols } }
    {
        Circuit {
            aig,
            props,
            symbols,
        }
    }

    /// Returns the graph, the properties and the symbol table. Takes no memory.
    pub fn into_parts(self) -> (Aig, Props, Symbols)
        ensures aig { result.0 ≡ self.aig }
        ensures props { result.1 ≡ self.props }
        ensures symbols { result.2 ≡ self.symbols }
    {
        let Circuit {
            aig,
            props,
            symbols,
        } = self;
        (aig, props, symbols)
    }

    /// Gives a caller the invariant of a circuit, of which it sees the value alone. Costs nothing.
    pub fn known(&self)
        ensures graph { IsGraph self.now.aig }
        ensures netlist { IsNetlist self.now }
    {
        self.aig.known();
    }

    /// Returns the graph.
    pub fn aig(&self) -> &Aig
        ensures value { result.now ≡ self.now.aig }
        ensures graph { IsGraph self.now.aig }
        ensures netlist { IsNetlist self.now }
    {
        self.aig.known();
        &self.aig
    }

    /// Returns the properties.
    pub fn props(&self) -> &Props
        ensures value { result.now ≡ self.now.props }
        ensures netlist { IsNetlist self.now }
    {
        &self.props
    }

    /// Returns the symbol table.
    pub fn symbols(&self) -> &Symbols
        ensures value { result.now ≡ self.now.symbols }
        ensures netlist { IsNetlist self.now }
    {
        &self.symbols
    }
}
