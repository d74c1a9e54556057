//! A picture calls a node without a name by the letter of its kind and its position, and a gate by
//! its literal.
ghost use Rattle.std.specs.Prelude.{◌≡◌, ◌<◌, ◌/◌, true, drop, get_or};
ghost use Rattle.aig_graph.specs.declared.literal.TheConstants.{MAX_VARIABLES};
ghost use Rattle.pictures.specs.Places.{gate_place, input_place, is_gate, kind_place, latch_place, literals_of, place_of, property_count, property_place};

use crate::node::Node;
use aig_graph::{Aig, Circuit, Lit, Props};
use file_words::number;

/// Returns true if the literal is that of a gate, not negated.
fn is_gate(aig: &Aig, lit: u64) -> bool
    ensures value { result ≡ is_gate aig.now lit }
    ensures small { result ≡ true → lit / 2 < MAX_VARIABLES }
{
    lit / 2 < aig.variables() as u64 && lit % 2 == 0 && aig.gate((lit / 2) as u32).is_some()
}

fn gate_place(aig: &Aig, lit: u64) -> Option<Node>
    ensures { result ≡ gate_place aig.now lit }
{
    if is_gate(aig, lit) {
        Some(Node::Variable((lit / 2) as u32))
    } else {
        None
    }
}

/// Returns the number of properties of the kind with this letter.
#[tactic(auto, unfolding(crate::specs::Places::property_count))]
fn property_count(props: &Props, letter: u8) -> usize
    ensures { result ≡ property_count props.now letter }
{
    if letter == b'o' {
        props.outputs.len()
    } else if letter == b'b' {
        props.bad.len()
    } else if letter == b'c' {
        props.constraints.len()
    } else if letter == b'j' {
        props.justice.len()
    } else if letter == b'f' {
        props.fairness.len()
    } else {
        0
    }
}

fn input_place(aig: &Aig, position: u64) -> Option<Node>
    ensures { result ≡ input_place aig.now position }
{
    if position < u64::from(aig.inputs()) {
        Some(Node::Variable(1 + position as u32))
    } else {
        None
    }
}

fn latch_place(aig: &Aig, position: u64) -> Option<Node>
    ensures { result ≡ latch_place aig.now position }
{
    if position < aig.latches().len() as u64 {
        Some(Node::Variable(aig.first_latch() + position as u32))
    } else {
        None
    }
}

fn property_place(props: &Props, letter: u8, position: u64) -> Option<Node>
    ensures { result ≡ property_place props.now letter position }
{
    if position < property_count(props, letter) as u64 {
        Some(Node::Property(letter, position as usize))
    } else {
        None
    }
}

#[tactic(auto, unfolding(crate::specs::Places::kind_place))]
fn kind_place(circuit: &Circuit, letter: u8, position: u64) -> Option<Node>
    ensures { result ≡ kind_place circuit.now letter position }
{
    if letter == b'i' {
        input_place(circuit.aig(), position)
    } else if letter == b'l' {
        latch_place(circuit.aig(), position)
    } else {
        property_place(circuit.props(), letter, position)
    }
}

/// Returns the bytes after the first one.
fn after_first(word: &[u8]) -> &[u8]
    ensures { result.now ≡ drop 1 word.now }
{
    if word.is_empty() { word } else { &word[1..] }
}

/// Returns the first byte, or 0 if there is none.
fn first(word: &[u8]) -> u8
    ensures { result ≡ get_or word.now 0 0 }
{
    word.first().copied().unwrap_or(0)
}

/// Returns the node that a picture calls by the word, whatever names the file has.
#[tactic(auto, unfolding(crate::specs::Places::place_of))]
pub(crate) fn place_of(circuit: &Circuit, word: &[u8]) -> Option<Node>
    ensures { result ≡ place_of circuit.now word.now }
{
    match number(word) {
        Some(lit) => gate_place(circuit.aig(), lit),
        None => match number(after_first(word)) {
            Some(position) => kind_place(circuit, first(word), position),
            None => None,
        },
    }
}

/// Returns the literals of the properties of a kind that have one each.
#[tactic(auto, unfolding(crate::specs::Places::literals_of))]
pub(crate) fn literals_of(props: &Props, letter: u8) -> &[Lit]
    ensures { result.now ≡ literals_of props.now letter }
{
    if letter == b'o' {
        props.outputs.as_slice()
    } else if letter == b'b' {
        props.bad.as_slice()
    } else if letter == b'c' {
        props.constraints.as_slice()
    } else {
        props.fairness.as_slice()
    }
}
