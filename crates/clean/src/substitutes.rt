//! What stands for each variable, in one pass over latches and then gates. One pass over the gates
//! suffices, since a gate's fan-ins come before it: what stands for them is known when it is met. A
//! gate may make a latch equal to another or constant, so passes are repeated (`cleaning`).
ghost use Rattle.std.specs.Prelude.{◌≡◌, IfOk, OnOk, length};
ghost use Rattle.aig_graph.specs.Graph.{first_gate};
ghost use Rattle.aig_graph.specs.Tables.{table};
ghost use Rattle.cleaned_circuits.specs.Latches.{leaf_substitute};
ghost use Rattle.cleaned_circuits.specs.Merged.{replaced_graph, substitutes_of};

use crate::gates::merged_gates;
use crate::held::Held;
use crate::latches::latch_substitutes;
use crate::merged::replaced_latches;
use crate::substitution::Substitution;
use crate::tables::PassTables;
use aig_graph::{Aig, NoMemory};
use std::alloc::Global;

/// Fills the table with the substitutes of the variables before the gates. A constant latch has its
/// constant, and a duplicate latch the first one of its kind.
fn fill_leaves(
    alloc: Global,
    aig: &Aig,
    held: &Held<'_>,
    substitutes: &mut Substitution,
) -> Result<(), NoMemory>
    requires { length held.now.marks.items ≡ length aig.now.latches }
    ensures { OnOk result (substitutes.new ≡ table 0 (first_gate aig.now)
        (leaf_substitute aig.now held.now.positions.now)) }
{
    substitutes.renew(aig.first_latch(), aig.latches_and_gates())?;
    latch_substitutes(alloc, aig, held, substitutes)
}

/// Fills the table as [`fill_leaves`] does, with the latches at these positions held.
fn put_leaves(
    alloc: Global,
    aig: &Aig,
    held: &[u32],
    substitutes: &mut Substitution,
) -> Result<(), NoMemory>
    ensures { OnOk result (substitutes.new ≡ table 0 (first_gate aig.now)
        (leaf_substitute aig.now held.now)) }
{
    let marks = Held::new(alloc, held, aig.latches().len())?;
    let done = fill_leaves(alloc, aig, &marks, substitutes);
    drop(marks);
    done
}

/// Adds the substitutes of the gates to those of the variables before them. Returns the graph in
/// which each literal reads its substitute, in the graph's own table of gates.
fn merged_over(
    alloc: Global,
    aig: Aig,
    held: &[u32],
    tables: &mut PassTables,
) -> Result<Aig, NoMemory>
    requires leaves { tables.old.literals ≡ table 0 (first_gate aig)
        (leaf_substitute aig held.now) }
    ensures substitutes { OnOk result (tables.new.literals ≡ substitutes_of aig held.now) }
    ensures graph { IfOk result (λ after. after ≡ replaced_graph (substitutes_of aig held.now)
        aig) }
{
    let _held = held;
    let first = aig.first_latch();
    let (inputs, latches, gates) = aig.into_parts();
    let PassTables { literals, links } = tables;
    let gates = merged_gates(alloc, first, gates, &mut *literals, links)?;
    let latches = replaced_latches(alloc, literals, latches.as_slice())?;
    Ok(Aig::from_parts(inputs, latches, gates))
}

/// Returns the graph in which each literal reads its substitute, in the graph's own table of gates.
/// The pass holds the latches at these positions. Fills the table with the substitute of each
/// variable; a redundant gate has the literal that it comes down to.
pub(crate) fn merged_graph(
    alloc: Global,
    aig: Aig,
    held: &[u32],
    tables: &mut PassTables,
) -> Result<Aig, NoMemory>
    ensures substitutes { OnOk result (tables.new.literals ≡ substitutes_of aig held.now) }
    ensures graph { IfOk result (λ after. after ≡ replaced_graph (substitutes_of aig held.now)
        aig) }
{
    match put_leaves(alloc, &aig, held, &mut tables.literals) {
        Ok(()) => merged_over(alloc, aig, held, tables),
        Err(error) => {
            drop(aig);
            Err(error)
        }
    }
}
