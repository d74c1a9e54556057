//! The first half of a pass: each literal reads what stands for it. Nothing goes and nothing is
//! renumbered yet, so the streams are kept by this half alone.
ghost use Rattle.std.specs.Prelude.{◌≡◌, ◌<◌, All, IfOk, OnOk, length, map};
ghost use Rattle.aig_graph.specs.Graph.{IsGraph, variable, variables_end};
ghost use Rattle.aig_graph.specs.Circuits.{ArePropsOf, IsNetlist};
ghost use Rattle.aig_graph.specs.Mapped.{mapped_props};
ghost use Rattle.cleaned_circuits.specs.Merged.{replaced, replaced_latch, replaced_gate, replaced_graph, replaced_circuit, substitutes_of};

use crate::gates::copied_gates;
use crate::names::copied_symbols;
use crate::substitutes::merged_graph;
use crate::substitution::Substitution;
use crate::tables::PassTables;
use aig_graph::{Aig, Circuit, Gate, Latch, NoMemory, Props};
use std::alloc::Global;

/// A circuit in which each literal reads what stands for it.
pub(crate) struct Merged {
    pub(crate) aig: Aig,
    pub(crate) props: Props,
}

impl Drop for Merged {
    // written out: docs/PROOFS.md, Drops and exits
    fn drop(self) {
        let Merged {
            aig: _aig,
            props: _props,
        } = self;
    }
}

/// Returns the latches, each with the substitute of its next literal.
pub(crate) fn replaced_latches(
    alloc: Global,
    substitutes: &Substitution,
    latches: &[Latch],
) -> Result<Vec<Latch>, NoMemory>
    requires { All (λ latch. variable latch.next < length substitutes.now) latches.now }
    ensures { IfOk result (λ replaced. replaced.items
        ≡ map (replaced_latch substitutes.now) latches.now) }
{
    let mut replaced = Vec::with_capacity(alloc, latches.len())?;
    for latch in latches {
        replaced.push(substitutes.latch(*latch))?;
    }
    Ok(replaced)
}

fn replaced_gates(
    alloc: Global,
    substitutes: &Substitution,
    aig: &Aig,
) -> Result<Vec<Gate>, NoMemory>
    requires { length substitutes.now ≡ variables_end aig.now }
    ensures { IfOk result (λ gates. gates.items ≡ map (replaced_gate substitutes.now)
        aig.now.gates) }
{
    let mut gates = Vec::with_capacity(alloc, aig.gates().len())?;
    for gate in aig.gates() {
        gates.push(substitutes.gate(*gate))?;
    }
    Ok(gates)
}

/// Returns the graph whose latches read substitutes, as its gates do already.
fn replaced_aig(
    alloc: Global,
    aig: &Aig,
    substitutes: &Substitution,
    gates: Vec<Gate>,
) -> Result<Aig, NoMemory>
    requires long { length substitutes.now ≡ variables_end aig.now }
    requires graph { IsGraph (replaced_graph substitutes.now aig.now) }
    requires gates { gates.items ≡ map (replaced_gate substitutes.now) aig.now.gates }
    ensures { IfOk result (λ after. after ≡ replaced_graph substitutes.now aig.now) }
{
    let latches = replaced_latches(alloc, substitutes, aig.latches())?;
    Ok(Aig::from_parts(aig.inputs(), latches, gates))
}

/// Returns the circuit in which substitutes are read. Nothing goes, and names stay.
///
/// # Errors
///
/// `NoMemory` if memory is refused.
pub fn replaced_circuit(
    alloc: Global,
    circuit: &Circuit,
    substitutes: &Substitution,
) -> Result<Circuit, NoMemory>
    requires long { length substitutes.now ≡ variables_end circuit.now.aig }
    requires graph { IsGraph (replaced_circuit substitutes.now circuit.now).aig }
    requires netlist { IsNetlist (replaced_circuit substitutes.now circuit.now) }
    ensures { IfOk result (λ after. after ≡ replaced_circuit substitutes.now circuit.now) }
{
    let gates = replaced_gates(alloc, substitutes, circuit.aig())?;
    let aig = replaced_aig(alloc, circuit.aig(), substitutes, gates)?;
    let props = circuit.props().mapped(alloc, substitutes)?;
    let symbols = copied_symbols(alloc, circuit.symbols())?;
    Ok(Circuit::new(aig, props, symbols))
}

/// Returns a copy of a graph.
pub(crate) fn copied_graph(alloc: Global, aig: &Aig) -> Result<Aig, NoMemory>
    ensures { IfOk result (λ copy. copy ≡ aig.now) }
{
    let latches = Vec::from_slice(alloc, aig.latches())?;
    let gates = copied_gates(alloc, aig)?;
    Ok(Aig::from_parts(aig.inputs(), latches, gates))
}

impl Merged {
    /// Returns the graph, and drops the properties.
    pub(crate) fn into_graph(self) -> Aig
        ensures { result ≡ self.aig }
    {
        let Merged { aig, props: _props } = self;
        aig
    }
}

/// Returns the graph and the properties in which substitutes are read, those of a pass with these
/// latches held. The graph's own table of gates is used. Fills the table with the substitutes.
pub(crate) fn merged_by(
    alloc: Global,
    aig: Aig,
    props: &Props,
    held: &[u32],
    tables: &mut PassTables,
) -> Result<Merged, NoMemory>
    requires props { ArePropsOf aig props.now }
    ensures substitutes { OnOk result (tables.new.literals ≡ substitutes_of aig held.now) }
    ensures aig { IfOk result (λ merged. merged.aig ≡ replaced_graph
        (substitutes_of aig held.now) aig) }
    ensures props { IfOk result (λ merged. merged.props ≡ mapped_props
        (replaced (substitutes_of aig held.now)) props.now) }
{
    let aig = merged_graph(alloc, aig, held, tables)?;
    match props.mapped(alloc, &tables.literals) {
        Ok(props) => Ok(Merged { aig, props }),
        Err(error) => {
            drop(aig);
            Err(error)
        }
    }
}
