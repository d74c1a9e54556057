//! Views of circuits.
ghost use Rattle.std.specs.Prelude.{◌≡◌, ◌&&◌, ◌||◌, IfOk, None, Some, option_map};
ghost use Rattle.aig_graph.specs.Border.{is_gate_in, is_read};
ghost use Rattle.aig_graph.specs.Closed.{is_held};
ghost use Rattle.aig_graph.specs.Graph.{first_latch, is_known, latch_at, latches_and_gates};
ghost use Rattle.pictures.specs.Looks.{look_alone, look_of, look_with, looks_by};
ghost use Rattle.aig_graph.specs.Marking.{mark_at};
ghost use Rattle.aig_graph.specs.Tables.{table};

use crate::centre::centre;
use crate::look::{Look, View};
use crate::near::near;
use aig_graph::{Aig, Circuit, ClosedSet, Keep, NoMemory, mark_at, mark_read, marks_of};
use frame_net::{PassSet, passable};
use std::alloc::Global;

/// Returns the look of a latch or a gate if no set is shown.
#[tactic(auto, unfolding(crate::specs::Looks::look_alone))]
fn look_alone(aig: &Aig, keep: &Keep, pass: &PassSet, var: u32) -> Look
    ensures { result ≡ look_alone aig.now keep.now pass.now var }
{
    Look {
        held: keep.is_held(aig, var),
        fixed: !pass.has(var),
        inside: false,
        border: false,
    }
}

fn looks_alone(alloc: Global, aig: &Aig, keep: &Keep, pass: &PassSet) -> Result<Vec<Look>, NoMemory>
    ensures { IfOk result (λ looks. looks.items ≡ looks_by aig.now
        (look_alone aig.now keep.now pass.now)) }
{
    let first = aig.first_latch();
    let entries = aig.latches_and_gates();
    let mut looks = Vec::with_capacity(alloc, entries)?;
    for k in 0..entries {
        looks.push_reserved(look_alone(aig, keep, pass, first + k as u32));
    }
    Ok(looks)
}

/// Returns true if the variable is a gate of the set.
fn is_inside(aig: &Aig, set: &ClosedSet, var: u32) -> bool
    ensures { result ≡ is_gate_in aig.now set.now var }
{
    aig.gate(var).is_some() && set.has(var)
}

/// Returns true if a latch or a gate is in the border of the set, by the marks of what is read from
/// outside.
fn is_border(aig: &Aig, keep: &Keep, set: &ClosedSet, read: &[bool], var: u32) -> bool
    ensures { result ≡ ((is_known (latch_at aig.now var) || is_gate_in aig.now set.now var) &&
        (is_held aig.now keep.now var || mark_at (first_latch aig.now) read.now var)) }
{
    (aig.is_known_latch(var) || is_inside(aig, set, var))
        && (keep.is_held(aig, var) || mark_at(read, aig.first_latch(), var))
}

/// Returns the look of a latch or a gate if a set is shown.
#[tactic(auto, unfolding(crate::specs::Looks::look_with))]
fn look_with(
    aig: &Aig,
    keep: &Keep,
    pass: &PassSet,
    set: &ClosedSet,
    read: &[bool],
    var: u32,
) -> Look
    ensures { result ≡ look_with aig.now keep.now pass.now set.now read.now var }
{
    Look {
        held: keep.is_held(aig, var),
        fixed: !pass.has(var),
        inside: is_inside(aig, set, var),
        border: is_border(aig, keep, set, read, var),
    }
}

fn looks_with(
    alloc: Global,
    aig: &Aig,
    keep: &Keep,
    pass: &PassSet,
    set: &ClosedSet,
    read: &[bool],
) -> Result<Vec<Look>, NoMemory>
    ensures { IfOk result (λ looks. looks.items ≡ looks_by aig.now
        (look_with aig.now keep.now pass.now set.now read.now)) }
{
    let first = aig.first_latch();
    let entries = aig.latches_and_gates();
    let mut looks = Vec::with_capacity(alloc, entries)?;
    for k in 0..entries {
        looks.push_reserved(look_with(aig, keep, pass, set, read, first + k as u32));
    }
    Ok(looks)
}

/// Marks from the first latch on what is read from outside of the set.
fn read_from_outside(
    alloc: Global,
    circuit: &Circuit,
    set: &ClosedSet,
) -> Result<Vec<bool>, NoMemory>
    ensures { IfOk result (λ read. read.items ≡ table (first_latch circuit.now.aig)
        (latches_and_gates circuit.now.aig) (is_read circuit.now set.now)) }
{
    let aig = circuit.aig();
    let entries = aig.latches_and_gates();
    let inside = marks_of(alloc, aig.first_latch(), entries, set.vars())?;
    let mut read = vec![in alloc; false; entries]?;
    mark_read(read.as_mut_slice(), aig, circuit.props(), inside.as_slice());
    Ok(read)
}

fn looks_of_circuit(alloc: Global, circuit: &Circuit, keep: &Keep) -> Result<Vec<Look>, NoMemory>
    ensures { IfOk result (λ looks. looks.items ≡ looks_by circuit.now.aig
        (look_of circuit.now keep.now None)) }
{
    let aig = circuit.aig();
    let pass = passable(alloc, aig, keep)?;
    looks_alone(alloc, aig, keep, &pass)
}

fn looks_of_set(
    alloc: Global,
    circuit: &Circuit,
    keep: &Keep,
    set: &ClosedSet,
) -> Result<Vec<Look>, NoMemory>
    ensures { IfOk result (λ looks. looks.items ≡ looks_by circuit.now.aig
        (look_of circuit.now keep.now (Some set.now))) }
{
    let aig = circuit.aig();
    let read = read_from_outside(alloc, circuit, set)?;
    let pass = passable(alloc, aig, keep)?;
    looks_with(alloc, aig, keep, &pass, set, read.as_slice())
}

fn looks(
    alloc: Global,
    circuit: &Circuit,
    keep: &Keep,
    set: Option<&ClosedSet>,
) -> Result<Vec<Look>, NoMemory>
    ensures { IfOk result (λ looks. looks.items ≡ looks_by circuit.now.aig
        (look_of circuit.now keep.now (option_map (λ s. s.now) set.entry))) }
{
    match set {
        Some(set) => looks_of_set(alloc, circuit, keep, set),
        None => looks_of_circuit(alloc, circuit, keep),
    }
}

impl View {
    ghost use Rattle.pictures.specs.Looks.{IsViewOf, everything};
    ghost use Rattle.pictures.specs.Near.{is_centre, is_near};

    /// Returns the view of a whole circuit with these latches held. A set that is given is shown
    /// with its border. A latch or a gate takes four bytes, an input none.
    ///
    /// # Errors
    ///
    /// `NoMemory` if memory is refused.
    pub fn new(
        alloc: Global,
        circuit: &Circuit,
        keep: &Keep,
        set: Option<&ClosedSet>,
    ) -> Result<View, NoMemory>
        ensures { IfOk result (IsViewOf circuit.now keep.now
            (option_map (λ s. s.now) set.entry) everything None) }
    {
        let looks = looks(alloc, circuit, keep, set)?;
        Ok(View::of_looks(circuit.aig().first_latch(), looks))
    }

    /// Returns the view of what is at most `depth` edges away from the inputs, latches and
    /// properties with a name. If nothing has the name, it is around what a picture calls so. No
    /// way goes on from the constant. A variable takes two bytes. Linear in the circuit for each
    /// edge.
    ///
    /// # Errors
    ///
    /// `NoMemory` if memory is refused.
    pub fn around(
        alloc: Global,
        circuit: &Circuit,
        keep: &Keep,
        set: Option<&ClosedSet>,
        name: &[u8],
        depth: u32,
    ) -> Result<View, NoMemory>
        ensures { IfOk result (IsViewOf circuit.now keep.now (option_map (λ s. s.now) set.entry)
            (is_near circuit.now name.now depth) (Some (is_centre circuit.now name.now))) }
    {
        let centre = centre(alloc, circuit, name)?;
        let marks = near(alloc, circuit, name, depth)?;
        let looks = looks(alloc, circuit, keep, set)?;
        let first = circuit.aig().first_latch();
        Ok(View::of_marked(first, looks, marks, centre))
    }
}
