//! The questions as a circuit.
ghost use Rattle.std.specs.Prelude.{◌≡◌, ◌+◌, ◌++◌, ◌∷◌, [], IfOk, OnOk, length};
ghost use Rattle.aig_graph.specs.Building.{without_gates};
ghost use Rattle.aig_graph.specs.Circuits.{IsNetlist, no_symbols};
ghost use Rattle.aig_graph.specs.Graph.{IsGraph};
ghost use Rattle.map_miters.specs.Miters.{AsksIn, IsAsked, IsMiter, failure_list, miter_with, question_name, question_names};
ghost use Rattle.map_miters.specs.Questions.{IsAskable};

use crate::errors::MiterError;
use crate::leaves::begun;
use crate::questions::{Failures, add_failures};
use aig_graph::{AigBuilder, Circuit, Lit, NoMemory, Props, Sequence, Symbol, Symbols};
use std::alloc::Global;

/// Returns a name at a position.
fn question_name(alloc: Global, position: u32, text: &str) -> Result<Symbol, NoMemory>
    ensures { IfOk result (λ symbol. symbol ≡ question_name position text.now) }
{
    Ok(Symbol {
        position,
        name: Sequence::from_vec(Vec::from_slice(alloc, text.as_bytes())?),
    })
}

/// Puts a name at the next position after those before.
fn push_name(
    alloc: Global,
    names: &mut Vec<Symbol>,
    position: u32,
    text: &str,
) -> Result<(), NoMemory>
    ensures { OnOk result (names.new.items
        ≡ names.old.items ++ question_name position text.now ∷ []) }
{
    let name = question_name(alloc, position, text)?;
    names.push(name)?;
    Ok(())
}

/// Puts the names of the outputs.
fn push_names(alloc: Global, names: &mut Vec<Symbol>) -> Result<(), NoMemory>
    requires { names.old.items ≡ [] }
    ensures { OnOk result (names.new.items ≡ question_names) }
{
    push_name(alloc, names, 0, "reset")?;
    push_name(alloc, names, 1, "keep")?;
    push_name(alloc, names, 2, "next")?;
    push_name(alloc, names, 3, "read")?;
    Ok(())
}

/// Returns the names of the outputs.
fn question_names(alloc: Global) -> Result<Sequence<Symbol>, NoMemory>
    ensures { IfOk result (λ names. names ≡ question_names) }
{
    let mut names = Vec::with_capacity(alloc, 4)?;
    push_names(alloc, &mut names)?;
    Ok(Sequence::from_vec(names))
}

/// Returns a symbol table with the names of the outputs alone.
fn symbols_of_questions(alloc: Global) -> Result<Symbols, NoMemory>
    ensures { IfOk result (λ symbols. symbols ≡ record no_symbols { outputs = question_names }) }
{
    let outputs = question_names(alloc)?;
    let mut symbols = Symbols::none(alloc);
    symbols.outputs = outputs;
    Ok(symbols)
}

/// Returns the outputs.
fn failure_list(alloc: Global, failures: Failures) -> Result<Vec<Lit>, NoMemory>
    ensures { IfOk result (λ lits. lits.items ≡ failure_list failures) }
{
    let lits = [failures.reset, failures.keep, failures.next, failures.read];
    let list = Vec::from_slice(alloc, &lits)?;
    Ok(list)
}

/// Returns the graph, its outputs and their names as a circuit. Takes no memory.
fn finished(alloc: Global, gates: AigBuilder, outputs: Vec<Lit>, symbols: Symbols) -> Circuit
    requires { IsNetlist (miter_with gates outputs.items symbols) }
    ensures { result ≡ miter_with gates outputs.items symbols }
{
    Circuit::new(gates.finish(), Props::of_outputs(alloc, outputs), symbols)
}

/// The graph and its outputs.
#[derive(Drop)]
struct Asked {
    gates: AigBuilder,
    outputs: Vec<Lit>,
}

/// Adds the questions to a graph without gates, and lists them.
fn outputs_of(
    alloc: Global,
    gates: &mut AigBuilder,
    first: &Circuit,
    second: &Circuit,
    map: &Circuit,
) -> Result<Vec<Lit>, MiterError>
    requires graph { IsGraph gates.old }
    requires begun { gates.old
        ≡ without_gates (first.now.aig.inputs + length first.now.aig.latches) [] }
    requires askable { IsAskable first.now second.now map.now }
    ensures { IfOk result (λ lits. AsksIn gates.new first.now second.now map.now lits.items) }
{
    let failures = add_failures(alloc, gates, first, second, map)?;
    let outputs = failure_list(alloc, failures)?;
    Ok(outputs)
}

/// Returns the graph of the questions.
fn assembled(
    alloc: Global,
    first: &Circuit,
    second: &Circuit,
    map: &Circuit,
) -> Result<Asked, MiterError>
    requires { IsAskable first.now second.now map.now }
    ensures { IfOk result (IsAsked first.now second.now map.now) }
{
    let mut gates = begun(alloc, first.aig())?;
    match outputs_of(alloc, &mut gates, first, second, map) {
        Ok(outputs) => Ok(Asked { gates, outputs }),
        Err(error) => {
            drop(gates);
            Err(error)
        }
    }
}

/// Returns the miter of a map of the first circuit's states to those of the second: a circuit
/// without latches. Its inputs are those of the first circuit, then one for the value of each of
/// its latches. Its outputs `reset`, `keep`, `next` and `read` are 1 if the map fails. Linear in
/// all three: the map stands three times in it.
///
/// # Errors
///
/// `NoMemory` if memory is refused, `TooLarge` if it would have more variables than a graph may
/// have.
pub fn miter(
    alloc: Global,
    first: &Circuit,
    second: &Circuit,
    map: &Circuit,
) -> Result<Circuit, MiterError>
    requires { IsAskable first.now second.now map.now }
    ensures { IfOk result (IsMiter first.now second.now map.now) }
{
    let symbols = symbols_of_questions(alloc)?;
    match assembled(alloc, first, second, map) {
        Ok(asked) => {
            let Asked { gates, outputs } = asked;
            Ok(finished(alloc, gates, outputs, symbols))
        }
        Err(error) => {
            drop(symbols);
            Err(error)
        }
    }
}
