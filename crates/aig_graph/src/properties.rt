//! The properties that are asked of a circuit, by kind, and the names of its inputs, latches and
//! properties.
ghost use Rattle.std.specs.Prelude.{◌≡◌};
ghost use Rattle.aig_graph.specs.Circuits.{outputs_alone, no_symbols};

use crate::literal::Lit;
use crate::sequence::Sequence;
use std::alloc::Global;

/// The properties of a circuit, by kind. A justice property is a list of literals.
pub struct Props {
    pub outputs: Sequence<Lit>,
    pub bad: Sequence<Lit>,
    pub constraints: Sequence<Lit>,
    pub justice: Sequence<Sequence<Lit>>,
    pub fairness: Sequence<Lit>,
}

impl Drop for Props {
    // written out: docs/PROOFS.md, Drops and exits
    fn drop(self) {
        let Props {
            outputs: _outputs,
            bad: _bad,
            constraints: _constraints,
            justice: _justice,
            fairness: _fairness,
        } = self;
    }
}

impl Props {
    /// Returns properties that are outputs only. Takes no memory.
    pub fn of_outputs(alloc: Global, outputs: Vec<Lit>) -> Props
        ensures { result ≡ outputs_alone outputs.items }
    {
        Props {
            outputs: Sequence::from_vec(outputs),
            bad: Sequence::empty(alloc),
            constraints: Sequence::empty(alloc),
            justice: Sequence::empty(alloc),
            fairness: Sequence::empty(alloc),
        }
    }
}

/// A symbol: the name of the input, latch or property at `position`, from 0, among those of its
/// kind. In a file it has no newline.
#[derive(Drop)]
pub struct Symbol {
    pub position: u32,
    pub name: Sequence<u8>,
}

/// The symbol table: the symbols by kind, their positions strictly rising. A justice symbol names a
/// property, not a literal.
pub struct Symbols {
    pub inputs: Sequence<Symbol>,
    pub latches: Sequence<Symbol>,
    pub outputs: Sequence<Symbol>,
    pub bad: Sequence<Symbol>,
    pub constraints: Sequence<Symbol>,
    pub justice: Sequence<Symbol>,
    pub fairness: Sequence<Symbol>,
}

impl Drop for Symbols {
    // written out: docs/PROOFS.md, Drops and exits
    fn drop(self) {
        let Symbols {
            inputs: _inputs,
            latches: _latches,
            outputs: _outputs,
            bad: _bad,
            constraints: _constraints,
            justice: _justice,
            fairness: _fairness,
        } = self;
    }
}

impl Symbols {
    /// Returns a table without symbols. Takes no memory.
    pub fn none(alloc: Global) -> Symbols
        ensures { result ≡ no_symbols }
    {
        Symbols {
            inputs: Sequence::empty(alloc),
            latches: Sequence::empty(alloc),
            outputs: Sequence::empty(alloc),
            bad: Sequence::empty(alloc),
            constraints: Sequence::empty(alloc),
            justice: Sequence::empty(alloc),
            fairness: Sequence::empty(alloc),
        }
    }
}
