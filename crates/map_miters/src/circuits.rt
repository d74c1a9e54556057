//! Circuits without names.
ghost use Rattle.std.specs.Prelude.{◌≡◌};
ghost use Rattle.aig_graph.specs.Circuits.{IsNetlist, no_symbols};

use aig_graph::{AigBuilder, Circuit, Props, Symbols};
use std::alloc::Global;

/// Returns the graph and its properties as a circuit. Takes no memory.
pub(crate) fn circuit_of(alloc: Global, gates: AigBuilder, props: Props) -> Circuit
    requires { IsNetlist (record { aig = gates; props = props; symbols = no_symbols }) }
    ensures { result ≡ record { aig = gates; props = props; symbols = no_symbols } }
{
    Circuit::new(gates.finish(), props, Symbols::none(alloc))
}
