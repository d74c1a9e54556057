//! From the lists of a file to its circuit. Each literal's variable becomes its place in file order
//! (`placing`). The gates are put in an order in which fan-ins come first (`gate_order`), and
//! places become the ranks in that order (`arranging`). The file's own lists go after the first of
//! these steps.
ghost use Rattle.std.specs.Prelude.{ℕ, List, ◌≡◌, ◌+◌, ◌≤◌, ◌^◌, ◌↔◌, length, map, All, IsTrue, IfOk, IfErr};
ghost use Rattle.aig_graph.specs.declared.properties.Symbols.{Symbols};
ghost use Rattle.aig_graph.specs.Circuits.{IsNetlist};
ghost use Rattle.ascii_file.specs.order.Order.{IsOrder, ordered};
ghost use Rattle.ascii_file.specs.Raw.{RawSymbol};
ghost use Rattle.ascii_file.specs.Headers.{IsHeaderWithin};
ghost use Rattle.ascii_file.specs.Meaning.{props_of};
ghost use Rattle.ascii_file.specs.Reading as reading;
ghost use Rattle.file_words.specs.declared.fault.ReadError.TheVariants as faults;
ghost use Rattle.file_words.specs.Answering.{Fails, Gives};
ghost use Rattle.ascii_file.specs.parts.Parts.{AreNamesWithin};
ghost use Rattle.aag_text.specs.Arranging.{AreRanks, graph_in_order, moved, order_or_cycle};
ghost use Rattle.aag_text.specs.Resolving.{AreListsRead, PlacedListsFit, IsArranged, IsConsistent, IsOrdered, placed_reads, raw_of};

use crate::circuit::arranging;
use crate::circuit::lists::RawLists;
use crate::circuit::order::{order, ranks};
use crate::circuit::placing::Placed;
use aig_graph::{Aig, Circuit, NoMemory, Props};
use ascii_file::{Header, Names, props};
use file_words::ReadError;
use std::alloc::Global;

/// Returns the graph with its gates in order.
fn graph(
    alloc: Global,
    header: &Header,
    sizes: &[u32],
    placed: &Placed,
    order: &[u32],
    ranks: &[u32],
) -> Result<Aig, NoMemory>
    requires placed { PlacedListsFit header.now sizes.now placed.now }
    requires order { IsOrder (placed_reads header.now placed.now) order.now }
    requires ranks { AreRanks order.now ranks.now }
    ensures { IfOk result (λ aig. aig ≡ graph_in_order header.now.inputs placed.now.latches
        placed.now.gates order.now ranks.now) }
{
    let first = 1 + header.inputs + header.latches;
    let latches = arranging::latches(alloc, first, ranks, placed.latches.as_slice())?;
    let gates = arranging::gates(alloc, first, ranks, order, placed.gates.as_slice())?;
    Ok(Aig::from_parts(header.inputs, latches, gates))
}

/// Returns the properties by the ranks of the gates.
fn properties(
    alloc: Global,
    header: &Header,
    sizes: &[u32],
    placed: &Placed,
    order: &[u32],
    ranks: &[u32],
) -> Result<Props, NoMemory>
    requires placed { PlacedListsFit header.now sizes.now placed.now }
    requires order { IsOrder (placed_reads header.now placed.now) order.now }
    requires ranks { AreRanks order.now ranks.now }
    ensures { IfOk result (λ props. props ≡ props_of header.now
        (map (moved
        (1 + header.now.inputs + header.now.latches) ranks.now) placed.now.safety) sizes.now
        (map (moved (1 + header.now.inputs + header.now.latches) ranks.now) placed.now.liveness)) }
{
    let _order = order;
    let first = 1 + header.inputs + header.latches;
    let safety = arranging::literals(alloc, first, ranks, placed.safety.as_slice())?;
    let liveness = arranging::literals(alloc, first, ranks, placed.liveness.as_slice())?;
    props(alloc, header, safety.as_slice(), sizes, liveness.as_slice())
}

/// A circuit before its names.
#[derive(Drop)]
struct Unnamed {
    aig: Aig,
    props: Props,
}

/// Returns the circuit with its gates in this order, without its names.
fn without_names(
    alloc: Global,
    header: &Header,
    sizes: &[u32],
    placed: &Placed,
    order: &[u32],
) -> Result<Unnamed, NoMemory>
    requires placed { PlacedListsFit header.now sizes.now placed.now }
    requires order { IsOrder (placed_reads header.now placed.now) order.now }
    ensures { IfOk result (λ circuit. (names : Symbols)
        → IsArranged header.now sizes.now placed.now names order.now
        (record { aig = circuit.aig; props = circuit.props; symbols = names })) }
{
    let ranks = ranks(alloc, order)?;
    let ranks = ranks.as_slice();
    let aig = graph(alloc, header, sizes, placed, order, ranks)?;
    let props = properties(alloc, header, sizes, placed, order, ranks)?;
    Ok(Unnamed { aig, props })
}

/// Returns the circuit of a graph and its properties, with these names.
fn named(alloc: Global, aig: Aig, props: Props, names: Names) -> Result<Circuit, NoMemory>
    requires { IsNetlist (record { aig = aig; props = props; symbols = names }) }
    ensures { IfOk result (λ circuit. circuit ≡ record
        { aig = aig; props = props; symbols = names }) }
{
    let symbols = names.into_symbols(alloc)?;
    Ok(Circuit::new(aig, props, symbols))
}

/// Returns the circuit with its gates in this order, and with its names.
fn circuit(
    alloc: Global,
    header: &Header,
    sizes: &[u32],
    placed: &Placed,
    order: &[u32],
    names: Names,
) -> Result<Circuit, NoMemory>
    requires placed { PlacedListsFit header.now sizes.now placed.now }
    requires order { IsOrder (placed_reads header.now placed.now) order.now }
    requires names { AreNamesWithin header.now names }
    ensures { IfOk result (λ circuit. IsArranged header.now sizes.now placed.now names
        order.now circuit) }
{
    match without_names(alloc, header, sizes, placed, order) {
        Ok(Unnamed { aig, props }) => named(alloc, aig, props, names),
        Err(fault) => Err(fault),
    }
}

/// Returns the circuit, or `Cycle`.
fn in_order(
    alloc: Global,
    header: &Header,
    sizes: &[u32],
    placed: Placed,
    names: Names,
) -> Result<Circuit, ReadError>
    requires placed { PlacedListsFit header.now sizes.now placed }
    requires names { AreNamesWithin header.now names }
    ensures ok { IfOk result (λ circuit. IsOrdered header.now sizes.now placed names circuit) }
    ensures err { IfErr result (λ e. Fails faults.NoMemory e (order_or_cycle
        (ordered (placed_reads header.now placed)))) }
{
    let first = 1 + header.inputs + header.latches;
    let order = order(alloc, first, placed.gates.as_slice())?;
    match circuit(alloc, header, sizes, &placed, order.as_slice(), names) {
        Ok(circuit) => Ok(circuit),
        Err(_) => Err(ReadError::NoMemory),
    }
}

/// Returns the circuit of the lists that the sections of an ASCII file left.
///
/// Takes linear time if each gate stands after those that it reads, else n log n for n gates. Takes
/// some forty bytes a gate beside the circuit, once the lists have been dropped.
///
/// # Errors
///
/// `Undefined` if a literal is read whose variable no line defines, else `Cycle` if gates read one
/// another in a cycle. `NoMemory` if memory is refused. Lists of a reader are never of other
/// lengths than the header says; such are `Undefined`.
pub fn resolve(alloc: Global, lists: RawLists) -> Result<Circuit, ReadError>
    requires within { IsHeaderWithin lists.header }
    requires small { 1 + length lists.inputs.items + length lists.latches.items + length
        lists.gates.items ≤ 2 ^ 28 }
    ensures { (symbols : List RawSymbol) → AreListsRead lists symbols
        → Gives faults.NoMemory (λ circuit. circuit) result
        (reading.resolve lists.header (raw_of lists symbols)) }
{
    if !lists.are_consistent() {
        drop(lists);
        return Err(ReadError::Undefined);
    }
    match lists.placed(alloc) {
        Ok(placed) => {
            let RawLists {
                header,
                inputs,
                latches,
                properties,
                gates,
                names,
                places,
            } = lists;
            drop(inputs);
            drop(latches);
            drop(gates);
            drop(places);
            let circuit = in_order(alloc, &header, properties.sizes(), placed, names);
            drop(properties);
            circuit
        }
        Err(fault) => {
            drop(lists);
            Err(fault)
        }
    }
}
