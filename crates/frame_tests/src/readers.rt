//! What the readers of literals, graphs and circuits say of a circuit of two latches with a name.
use aag_text::read_aag;
use aig_graph::{Circuit, Latch, Lit, Reset};
use std::alloc::Global;
use std::test::*;

/// Two inputs and a latch at each; the second latch starts at 1. The gate of the first latch and
/// the negated second is the output, negated. The second input has a name.
const NAMED_INPUT: &[u8] = b"aag 5 2 2 1 1\n2\n4\n6 2\n8 4 1\n11\n10 9 6\ni1 go\n";

/// Returns whether a literal and its negation differ in the sign alone.
fn is_negated_once(lit: Lit) -> bool {
    let other = lit.not();
    (other.var() == lit.var()) & (other.is_negated() != lit.is_negated()) & (other.not() == lit)
}

/// Returns whether there are two inputs, then the latches, and no other.
fn has_latches(circuit: &Circuit) -> bool {
    let aig = circuit.aig();
    let first = Latch {
        next: Lit::new(1, false),
        reset: Reset::Zero,
    };
    let second = Latch {
        next: Lit::new(2, false),
        reset: Reset::One,
    };
    (aig.inputs() == 2)
        & (aig.latch(2) == None)
        & (aig.latch(3) == Some(first))
        & (aig.latch(4) == Some(second))
        & (aig.latch(5) == None)
}

/// Returns whether the output is the negated gate, which reads a negated latch.
fn has_output(circuit: &Circuit) -> bool {
    let outputs = circuit.props().outputs.as_slice();
    let gates = circuit.aig().gates();
    if outputs.len() != 1 || gates.len() != 1 {
        return false;
    }
    let (output, gate) = (outputs[0], gates[0]);
    output.is_negated()
        & (output.var() == 5)
        & gate.rhs0.is_negated()
        & !gate.rhs1.is_negated()
        & is_negated_once(output)
        & is_negated_once(gate.rhs1)
}

/// Returns whether the second input has its name, and no latch has one.
fn has_name(circuit: &Circuit) -> bool {
    let symbols = circuit.symbols();
    let inputs = symbols.inputs.as_slice();
    if inputs.len() != 1 {
        return false;
    }
    let input = &inputs[0];
    symbols.latches.is_empty() & (input.position == 1) & (input.name.as_slice() == b"go".as_slice())
}

/// Returns whether all of it is so of the circuit's text.
fn has_all(alloc: Global) -> bool {
    match read_aag(alloc, NAMED_INPUT) {
        Ok(circuit) => {
            let all = has_latches(&circuit) & has_output(&circuit) & has_name(&circuit);
            drop(circuit);
            all
        }
        Err(_) => false,
    }
}

#[test]
fn readers_give_latches_outputs_signs_and_names(rt: HostRuntime) {
    assert!(rt; has_all(rt.alloc()));
}
