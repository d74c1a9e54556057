//! Whether three circuits fit together.
ghost use Rattle.std.specs.Prelude.{◌↔◌, IsTrue};
ghost use Rattle.map_checks.specs.Answers.{AreFitting, IsMap};

use aig_graph::{Circuit, have_same_shape};

/// Returns true if the circuit is a map: without latches, with outputs and constraints alone.
pub fn is_map(map: &Circuit) -> bool
    ensures { IsTrue result ↔ IsMap map.now }
{
    let props = map.props();
    map.aig().latches().is_empty()
        && props.bad.is_empty()
        && props.justice.is_empty()
        && props.fairness.is_empty()
}

/// Returns true if the circuits have one shape, and the map fits them. It has an input for each
/// latch of the first and an output for each of the second.
pub fn are_fitting(first: &Circuit, second: &Circuit, map: &Circuit) -> bool
    ensures { IsTrue result ↔ AreFitting first.now second.now map.now }
{
    have_same_shape(first, second)
        && map.aig().inputs() as usize == first.aig().latches().len()
        && map.props().outputs.len() == second.aig().latches().len()
}
