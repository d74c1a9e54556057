//! A graph that is built, and the value of its gate at the start.
ghost use Rattle.std.specs.Prelude.{◌≡◌, [], ◌∷◌, IfOk};
ghost use Rattle.aig_graph.specs.Building.{without_gates};
ghost use Rattle.aig_graph.specs.Graph.{first_latch, variables_end};

use aig_graph::{
    Aig, AigBuilder, BuildError, Lit, Reset, reset_value, set_laws, stream_laws, value_laws,
};
use std::alloc::Global;
use std::test::*;

/// Returns two inputs and two latches.
fn two_latches(alloc: Global) -> Result<AigBuilder, BuildError>
    ensures { IfOk result (λ builder. builder ≡ without_gates 2 (Reset.Zero ∷ Reset.Zero ∷ [])) }
{
    let resets = Vec::from_array(alloc, [Reset::Zero, Reset::Zero])?;
    AigBuilder::new(alloc, 2, resets)
}

/// Returns a graph of a latch at each input, and the gate of the latches, which is variable 5.
fn gate_of_two_latches(alloc: Global) -> Result<Aig, BuildError>
    ensures first { IfOk result (λ aig. first_latch aig ≡ 3) }
    ensures end { IfOk result (λ aig. variables_end aig ≡ 6) }
{
    let mut builder = two_latches(alloc)?;
    let _gate = builder.and(Lit::new(3, false), Lit::new(4, false))?;
    builder.set_latch(0, Lit::new(1, false));
    builder.set_latch(1, Lit::new(2, false));
    Ok(builder.finish())
}

/// Returns true if the graph is built, and its gate's negation is 0 when the latches are 1.
fn builds_the_gate(alloc: Global) -> bool {
    match gate_of_two_latches(alloc) {
        Ok(aig) => {
            let is_set = reset_value(&aig, &[false, true, true], Lit::new(5, true));
            drop(aig);
            !is_set
        }
        Err(_) => false,
    }
}

#[test]
fn builds_a_graph_and_reads_a_value_at_step_0(rt: HostRuntime) {
    value_laws();
    stream_laws();
    set_laws();
    assert!(rt; builds_the_gate(rt.alloc()));
}
