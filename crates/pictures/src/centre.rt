//! The middle of a neighbourhood: what has the name that is asked for, or if nothing has it, what a
//! picture calls so.
ghost use Rattle.std.specs.Prelude.{◌≡◌, IfOk};
ghost use Rattle.aig_graph.specs.Graph.{variables_end};
ghost use Rattle.pictures.specs.Near.{has_node, is_centre, is_word_of};
ghost use Rattle.pictures.specs.Places.{is_at, is_property_read};
ghost use Rattle.aig_graph.specs.Marking.{Marks};
ghost use Rattle.aig_graph.specs.Tables.{table};

use crate::named::{has_name, mark_justice, mark_named, mark_single};
use crate::node::Node;
use crate::places::{literals_of, place_of};
use aig_graph::{Circuit, NoMemory, Props, mark_variable};
use std::alloc::Global;

/// Returns true if something in the circuit has the name, or a picture calls something so.
pub fn has_node(circuit: &Circuit, name: &[u8]) -> bool
    ensures { result ≡ has_node circuit.now name.now }
{
    has_name(circuit, name) || place_of(circuit, name).is_some()
}

/// Marks what a property reads, by its letter and its position.
#[tactic(auto, unfolding(crate::specs::Places::is_property_read))]
fn mark_property(marks: &mut [bool], props: &Props, letter: u8, position: usize)
    ensures { Marks 0 marks.old marks.new (is_property_read props.now letter position) }
{
    if letter == b'j' {
        mark_justice(marks, props.justice.as_slice(), position);
    } else {
        mark_single(marks, literals_of(props, letter), position);
    }
}

/// Marks a variable, or what a property reads.
#[tactic(auto, unfolding(crate::specs::Places::is_at))]
fn mark_node(marks: &mut [bool], props: &Props, node: Node)
    ensures { Marks 0 marks.old marks.new (is_at props.now node) }
{
    match node {
        Node::Variable(var) => mark_variable(marks, 0, var),
        Node::Property(letter, position) => mark_property(marks, props, letter, position),
    }
}

fn mark_word(marks: &mut [bool], circuit: &Circuit, word: &[u8])
    ensures { Marks 0 marks.old marks.new (is_word_of circuit.now word.now) }
{
    if let Some(node) = place_of(circuit, word) {
        mark_node(marks, circuit.props(), node);
    }
}

#[tactic(auto, unfolding(crate::specs::Near::is_centre))]
fn mark_centre(marks: &mut [bool], circuit: &Circuit, name: &[u8])
    ensures { Marks 0 marks.old marks.new (is_centre circuit.now name.now) }
{
    if has_name(circuit, name) {
        mark_named(marks, circuit, name);
    } else {
        mark_word(marks, circuit, name);
    }
}

/// Marks by variable what is in the middle.
pub(crate) fn centre(alloc: Global, circuit: &Circuit, name: &[u8]) -> Result<Vec<bool>, NoMemory>
    ensures { IfOk result (λ marks. marks.items ≡ table 0 (variables_end circuit.now.aig)
        (is_centre circuit.now name.now)) }
{
    let mut marks = vec![in alloc; false; circuit.aig().variables()]?;
    mark_centre(marks.as_mut_slice(), circuit, name);
    Ok(marks)
}
