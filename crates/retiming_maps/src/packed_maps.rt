//! A state map is made to be written. Its gates stand as the bytes of the binary form, and are
//! never made those of a graph.
ghost use Rattle.std.specs.Prelude.{◌≡◌, []};
ghost use Rattle.aig_graph.specs.Circuits.{AreSymbolsOf, IsNetlist};
ghost use Rattle.aig_graph.specs.Graph.{IsGraph};
ghost use Rattle.retiming_maps.specs.Plain.{IsPlainMap};

use aig_graph::{Props, Symbols};
use map_circuits::MapGates;
use std::marker::Model;

/// A state map as a circuit. Its inputs are the latches of one circuit. Its outputs are what the
/// latches of another hold, if its constraints are 1. Its gates stand as the deltas of the binary
/// form.
#[derive(Drop)]
pub struct StateMap {
    gates: MapGates,
    props: Props,
    symbols: Symbols,
}

impl Model for StateMap {
    ghost use Rattle.aig_graph.specs.Circuits.{Netlist};
    ghost use Rattle.retiming_maps.specs.Plain.{IsPlainMap};

    ghost Value = { Netlist };

    ghost view = { λ m. record { aig = m.gates; props = m.props; symbols = m.symbols } };

    ghost invariant = { λ m. IsPlainMap (record { aig = m.gates; props = m.props; symbols = m.symbols }) };
}

impl StateMap {
    /// Returns the map of these parts.
    pub(crate) fn new(gates: MapGates, props: Props, symbols: Symbols) -> StateMap
        requires { IsPlainMap (record { aig = gates; props = props; symbols = symbols }) }
        ensures { result ≡ record { aig = gates; props = props; symbols = symbols } }
    {
        StateMap {
            gates,
            props,
            symbols,
        }
    }

    /// States what holds of every such map. Costs nothing: a caller sees the value of a map alone,
    /// and has its invariant by this call.
    pub fn known(&self)
        ensures graph { IsGraph self.now.aig }
        ensures latches { self.now.aig.latches ≡ [] }
        ensures plain { IsPlainMap self.now }
    {
        self.gates.known();
    }

    /// Returns the gates.
    pub fn gates(&self) -> &MapGates
        ensures { result.now ≡ self.now.aig }
    {
        &self.gates
    }

    /// Returns the properties: outputs and constraints.
    pub fn props(&self) -> &Props
        ensures { result.now ≡ self.now.props }
    {
        &self.props
    }

    /// Returns the symbol table.
    pub fn symbols(&self) -> &Symbols
        ensures { result.now ≡ self.now.symbols }
    {
        &self.symbols
    }

    /// Returns the map with these names in place of its own. Nothing is copied.
    pub fn with_symbols(self, symbols: Symbols) -> StateMap
        requires { AreSymbolsOf self.aig self.props symbols }
        ensures { result ≡ record self { symbols = symbols } }
    {
        let StateMap {
            gates,
            props,
            symbols: before,
        } = self;
        drop(before);
        StateMap {
            gates,
            props,
            symbols,
        }
    }
}
