//! A pass that tells what became of each latch. So the values of a later circuit's latches can be
//! told by those of an earlier one.
ghost use Rattle.std.specs.Prelude.{◌≡◌, ◌<◌, ◌+◌, All, IfOk, length, slice_get};
ghost use Rattle.aig_graph.specs.Graph.{first_latch};
ghost use Rattle.aig_graph.specs.Tables.{table};
ghost use Rattle.cleaned_circuits.specs.Latches.{latch_substitute};
ghost use Rattle.cleaned_circuits.specs.Merged.{substitutes_of};
ghost use Rattle.clean.specs.Sweep.{is_marked};
ghost use Rattle.clean.specs.Tracing.{IsTraced};

use crate::latches::own_literal;
use crate::merged::{copied_graph, merged_by};
use crate::pass::trimmed;
use crate::reached::{Reached, reach_everything};
use crate::substitution::Substitution;
use crate::tables::PassTables;
use aig_graph::{Aig, Circuit, Lit, NoMemory};
use std::alloc::Global;

/// What a pass leaves of a circuit, and what became of each latch.
#[derive(Drop)]
pub struct TracedPass {
    /// What is left.
    pub circuit: Circuit,
    /// Of each free latch that stays, its place among the free latches before.
    pub kept_free: Vec<u32>,
    /// The new positions of the held latches.
    pub held: Vec<u32>,
    /// The literal that stands for each latch of the circuit before: a constant, or that of a
    /// latch.
    pub substitutes: Vec<Lit>,
    /// Whether each latch of the circuit before stays.
    pub stays: Vec<bool>,
    /// By variable from the first latch on, whether a latch or gate of before stays. A hint: no
    /// clause speaks of it.
    pub kept: Vec<bool>,
}

/// Returns the substitute of each latch, by those of all variables.
fn latch_literals(
    alloc: Global,
    aig: &Aig,
    held: &[u32],
    substitutes: &Substitution,
) -> Result<Vec<Lit>, NoMemory>
    requires { substitutes.now ≡ substitutes_of aig.now held.now }
    ensures { IfOk result (λ literals. literals.items ≡ table 0 (length aig.now.latches)
        (λ j. latch_substitute aig.now held.now j (slice_get aig.now.latches j))) }
{
    let _held = held;
    let mut literals = Vec::with_capacity(alloc, aig.latches().len())?;
    for place in 0..aig.latches().len() {
        literals.push(substitutes.literal(own_literal(aig, place)))?;
    }
    Ok(literals)
}

/// Returns the marks of the latches that are reached.
fn stays_of(alloc: Global, aig: &Aig, reached: &Reached) -> Result<Vec<bool>, NoMemory>
    ensures { IfOk result (λ stays. stays.items ≡ table 0 (length aig.now.latches)
        (λ j. is_marked reached.now (first_latch aig.now + j))) }
{
    let first = aig.first_latch();
    let mut stays = Vec::with_capacity(alloc, aig.latches().len())?;
    for place in 0..aig.latches().len() as u32 {
        stays.push(reached.has(first + place))?;
    }
    Ok(stays)
}

/// Runs one pass of cleaning, with the latches at these positions held. Tells the substitutes of
/// latches, and the latches that are dropped since nothing depends on them. [`clean`](crate::clean)
/// makes passes while they change something. Linear, as a pass of that.
pub fn traced_pass(alloc: Global, circuit: &Circuit, held: &[u32]) -> Result<TracedPass, NoMemory>
    requires { All (λ j. j < length circuit.now.aig.latches) held.now }
    ensures { IfOk result (IsTraced held.now circuit.now) }
{
    let mut tables = PassTables::none(alloc);
    let aig = copied_graph(alloc, circuit.aig())?;
    let merged = merged_by(alloc, aig, circuit.props(), held, &mut tables)?;
    let substitutes = latch_literals(alloc, circuit.aig(), held, &tables.literals)?;
    let reached = reach_everything(alloc, &merged.aig, &merged.props, held)?;
    let stays = stays_of(alloc, circuit.aig(), &reached)?;
    let table = &mut tables.literals;
    let pass = trimmed(alloc, merged, reached, circuit.symbols(), held, table)?;
    Ok(TracedPass {
        circuit: pass.circuit,
        kept_free: pass.kept_free,
        held: pass.held,
        substitutes,
        stays,
        kept: pass.kept,
    })
}
