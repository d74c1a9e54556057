ghost use Rattle.std.specs.Prelude.{◌≡◌};
ghost use Rattle.witnesses.specs.Circuits.{bad_literals, widths_of};

use aig_graph::{Circuit, Lit, Props};

/// How many properties of each kind, latches and inputs a circuit has for a witness to speak of.
#[derive(Clone, Copy)]
pub struct Widths {
    /// The bad states; in a circuit without bad states, the outputs.
    pub bad: usize,
    pub justice: usize,
    pub latches: usize,
    pub inputs: usize,
}

impl Widths {
    /// Returns those of a circuit.
    pub fn of(circuit: &Circuit) -> Widths
        ensures { result ≡ widths_of circuit.now }
    {
        let aig = circuit.aig();
        let props = circuit.props();
        Widths {
            bad: bad_literals(props).len(),
            justice: props.justice.len(),
            latches: aig.latches().len(),
            inputs: aig.inputs() as usize,
        }
    }
}

/// Returns the literals of the bad states, or of the outputs if there is no bad state.
pub(crate) fn bad_literals(props: &Props) -> &[Lit]
    ensures { result.now ≡ bad_literals props.now }
{
    if props.bad.is_empty() {
        props.outputs.as_slice()
    } else {
        props.bad.as_slice()
    }
}
