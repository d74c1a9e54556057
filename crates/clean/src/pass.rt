//! One pass: first literals read what stands for them (`merged`), then what isn't reached goes
//! (`trim`). Each half keeps the streams by itself. The gates stay in one table: their pairs are
//! written over what they read, and close up there.
ghost use Rattle.std.specs.Prelude.{◌≡◌, ◌<◌, All, IfOk, length, map};
ghost use Rattle.aig_graph.specs.Graph.{IsGraph, IsLiteralOf, first_latch};
ghost use Rattle.aig_graph.specs.Circuits.{IsNetlist};
ghost use Rattle.aig_graph.specs.Mapped.{OfProps, mapped_props};
ghost use Rattle.aig_graph.specs.Streams.{SameStreams};
ghost use Rattle.cleaned_circuits.specs.Reached.{stays};
ghost use Rattle.cleaned_circuits.specs.Trimmed.{kept_free, new_position, picked, renumbered, renumbered_latch, trimmed_graph, trimmed_of, trimmed_symbols};
ghost use Rattle.cleaned_circuits.specs.Cleaned.{IsPass};
ghost use Rattle.clean.specs.Passes.{IsTrimOf};
ghost use Rattle.clean.specs.Substitutions.{new_literals};
ghost use Rattle.clean.specs.Sweep.{is_marked};

use crate::merged::{Merged, copied_graph, merged_by};
use crate::names::trimmed_symbols;
use crate::reached::{Reached, reach_everything};
use crate::substitution::Substitution;
use crate::tables::PassTables;
use crate::trim::{Trim, closed_graph, put_new_literals};
use aig_graph::{Aig, Circuit, Latch, NoMemory, Props, Symbols};
use std::alloc::Global;

/// What a pass leaves of a circuit.
#[derive(Drop)]
pub(crate) struct Pass {
    pub(crate) circuit: Circuit,
    /// Of each free latch that stays, its place among the free latches before.
    pub(crate) kept_free: Vec<u32>,
    /// By variable from the first latch on, whether a latch or gate of before stays. A hint: no
    /// clause speaks of it.
    pub(crate) kept: Vec<bool>,
    /// The new positions of the held latches.
    pub(crate) held: Vec<u32>,
}

/// What a pass leaves beside the gates.
#[derive(Drop)]
struct Rest {
    latches: Vec<Latch>,
    props: Props,
    symbols: Symbols,
    kept_free: Vec<u32>,
    held: Vec<u32>,
}

/// Returns what a pass leaves beside the gates, by the new literals.
fn rest_of(
    alloc: Global,
    merged: &Merged,
    reached: &Reached,
    symbols: &Symbols,
    held: &[u32],
    literals: &Substitution,
) -> Result<Rest, NoMemory>
    requires literals { literals.now ≡ new_literals merged.now.aig (is_marked reached.now) }
    requires in_range { All (λ j. j < length merged.now.aig.latches) held.now }
    requires props { OfProps (IsLiteralOf merged.now.aig) merged.now.props }
    requires names { All (λ name. name.position < length merged.now.aig.latches)
        symbols.now.latches }
    ensures latches { IfOk result (λ rest. rest.latches.items
        ≡ map (renumbered_latch merged.now.aig (is_marked reached.now))
        (picked (stays merged.now.aig (is_marked reached.now)) (first_latch merged.now.aig)
        merged.now.aig.latches)) }
    ensures props { IfOk result (λ rest. rest.props
        ≡ mapped_props (renumbered merged.now.aig (is_marked reached.now)) merged.now.props) }
    ensures symbols { IfOk result (λ rest. rest.symbols
        ≡ trimmed_symbols merged.now.aig (is_marked reached.now) symbols.now) }
    ensures kept_free { IfOk result (λ rest. rest.kept_free.items
        ≡ kept_free merged.now.aig (is_marked reached.now)) }
    ensures held { IfOk result (λ rest. rest.held.items
        ≡ map (new_position merged.now.aig (is_marked reached.now)) held.now) }
{
    let trim = Trim::new(&merged.aig, reached, literals);
    let kept_free = trim.kept_free(alloc)?;
    let held = trim.new_positions(alloc, held)?;
    let latches = trim.latches(alloc)?;
    let props = trim.props(alloc, &merged.props)?;
    let symbols = trimmed_symbols(alloc, &trim, symbols)?;
    Ok(Rest {
        latches,
        props,
        symbols,
        kept_free,
        held,
    })
}

/// Returns the circuit of the merged graph and this rest, without what isn't reached, in the
/// graph's own table of gates.
fn closed(merged: Merged, reached: Reached, rest: Rest, literals: &Substitution) -> Pass
    requires literals { literals.now ≡ new_literals merged.aig (is_marked reached) }
    requires latches { rest.latches.items ≡ map (renumbered_latch merged.aig (is_marked reached))
        (picked (stays merged.aig (is_marked reached)) (first_latch merged.aig)
        merged.aig.latches) }
    requires graph { IsGraph (trimmed_graph merged.aig (is_marked reached)) }
    requires netlist { IsNetlist (record {
      aig = trimmed_graph merged.aig (is_marked reached);
      props = rest.props;
      symbols = rest.symbols;
    }) }
    ensures circuit { result.circuit ≡ record {
      aig = trimmed_graph merged.aig (is_marked reached);
      props = rest.props;
      symbols = rest.symbols;
    } }
    ensures kept_free { result.kept_free ≡ rest.kept_free }
    ensures held { result.held ≡ rest.held }
{
    let Rest {
        latches,
        props,
        symbols,
        kept_free,
        held,
    } = rest;
    let aig = closed_graph(merged.into_graph(), latches, &reached, literals);
    Pass {
        circuit: Circuit::new(aig, props, symbols),
        kept_free,
        kept: reached.into_marks(),
        held,
    }
}

/// Returns the merged circuit, without what isn't reached. The new literals take the place of what
/// the table held.
pub(crate) fn trimmed(
    alloc: Global,
    merged: Merged,
    reached: Reached,
    symbols: &Symbols,
    held: &[u32],
    table: &mut Substitution,
) -> Result<Pass, NoMemory>
    requires in_range { All (λ j. j < length merged.aig.latches) held.now }
    requires props { OfProps (IsLiteralOf merged.aig) merged.props }
    requires names { All (λ name. name.position < length merged.aig.latches) symbols.now.latches }
    requires graph { IsGraph (trimmed_graph merged.aig (is_marked reached)) }
    requires netlist { IsNetlist (trimmed_of (record {
      aig = merged.aig;
      props = merged.props;
      symbols = symbols.now;
    }) (is_marked reached)) }
    ensures { IfOk result (λ pass. IsTrimOf held.now (record {
      aig = merged.aig;
      props = merged.props;
      symbols = symbols.now;
    }) pass.circuit pass.kept_free.items pass.held.items (is_marked reached)) }
{
    put_new_literals(&merged.aig, &reached, table)?;
    match rest_of(alloc, &merged, &reached, symbols, held, table) {
        Ok(rest) => Ok(closed(merged, reached, rest, table)),
        Err(error) => {
            drop(merged);
            drop(reached);
            Err(error)
        }
    }
}

/// Runs one pass over a circuit of these parts, with the latches at these positions held, in the
/// graph's own table of gates. The tables are used.
fn pass_of(
    alloc: Global,
    aig: Aig,
    props: &Props,
    symbols: &Symbols,
    held: &[u32],
    tables: &mut PassTables,
) -> Result<Pass, NoMemory>
    requires netlist { IsNetlist (record { aig = aig; props = props.now; symbols = symbols.now }) }
    requires in_range { All (λ j. j < length aig.latches) held.now }
    ensures { IfOk result (λ pass. IsPass held.now (record {
      aig = aig;
      props = props.now;
      symbols = symbols.now;
    }) pass.circuit pass.kept_free.items pass.held.items) }
{
    aig.known();
    let merged = merged_by(alloc, aig, props, held, tables)?;
    match reach_everything(alloc, &merged.aig, &merged.props, held) {
        Ok(reached) => trimmed(alloc, merged, reached, symbols, held, &mut tables.literals),
        Err(error) => {
            drop(merged);
            Err(error)
        }
    }
}

/// Runs one pass over a copy of a circuit, with the latches at these positions held. The tables are
/// used.
pub(crate) fn run_pass(
    alloc: Global,
    circuit: &Circuit,
    held: &[u32],
    tables: &mut PassTables,
) -> Result<Pass, NoMemory>
    requires { All (λ j. j < length circuit.now.aig.latches) held.now }
    ensures pass { IfOk result (λ pass. IsPass held.now circuit.now pass.circuit
        pass.kept_free.items pass.held.items) }
    ensures streams { IfOk result (λ pass. SameStreams circuit.now pass.circuit
        pass.kept_free.items) }
{
    let aig = copied_graph(alloc, circuit.aig())?;
    pass_of(alloc, aig, circuit.props(), circuit.symbols(), held, tables)
}

/// Runs one pass over a circuit as [`run_pass`] does, in the circuit's own table of gates.
pub(crate) fn run_pass_over(
    alloc: Global,
    circuit: Circuit,
    held: &[u32],
    tables: &mut PassTables,
) -> Result<Pass, NoMemory>
    requires { All (λ j. j < length circuit.aig.latches) held.now }
    ensures pass { IfOk result (λ pass. IsPass held.now circuit pass.circuit pass.kept_free.items
        pass.held.items) }
    ensures streams { IfOk result (λ pass. SameStreams circuit pass.circuit
        pass.kept_free.items) }
{
    circuit.known();
    let (aig, props, symbols) = circuit.into_parts();
    let pass = pass_of(alloc, aig, &props, &symbols, held, tables);
    drop(props);
    drop(symbols);
    pass
}
