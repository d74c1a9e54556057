//! The functions of the latches of a merged circuit: each is that of its reading. Under the
//! constraints that is what the latch held before, so a map may use it. A cleaning that follows
//! then finds a merged latch and its reading to be one function, which takes no constraint.
ghost use Rattle.std.specs.Prelude.{◌≡◌, IfOk, length};
ghost use Rattle.aig_graph.specs.Graph.{first_latch};
ghost use Rattle.map_circuits.specs.Constraining.{IsSubstitute, substitute_function};
ghost use Rattle.map_circuits.specs.Steps.{IsSomeReading, read_functions};

use aig_graph::{Aig, Lit, NoMemory};
use std::alloc::Global;

/// Returns the function of a latch's reading: a constant, or a literal of a latch.
fn read_function(functions: &[Lit], first: u32, reads: Lit) -> Lit
    requires { IsSubstitute first functions.now reads }
    ensures { result ≡ substitute_function first functions.now reads }
{
    if reads.var() == 0 {
        reads
    } else {
        functions[(reads.var() - first) as usize].signed_as(reads)
    }
}

/// Returns the function of the reading of each latch of a graph, by the functions of the latches.
///
/// # Errors
///
/// `NoMemory` if memory is refused.
pub fn read_functions(
    alloc: Global,
    functions: &[Lit],
    aig: &Aig,
    reads: &[Lit],
) -> Result<Vec<Lit>, NoMemory>
    requires many { length functions.now ≡ length aig.now.latches }
    requires reading { IsSomeReading aig.now reads.now }
    ensures { IfOk result (λ new. new.items
        ≡ read_functions (first_latch aig.now) functions.now reads.now) }
{
    let first = aig.first_latch();
    let mut new = Vec::with_capacity(alloc, reads.len())?;
    for lit in reads {
        new.push(read_function(functions, first, *lit))?;
    }
    Ok(new)
}
