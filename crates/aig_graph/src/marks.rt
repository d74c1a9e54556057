ghost use Rattle.std.specs.Prelude.{ℕ, ◌≡◌, ◌==◌, IfOk};
ghost use Rattle.aig_graph.specs.Marking.{has, mark_at, Marks};
ghost use Rattle.aig_graph.specs.Tables.{table};

use crate::memory::NoMemory;
use std::alloc::Global;

/// Returns the variable's mark. A variable that the table doesn't cover isn't marked.
#[tactic(auto, unfolding(crate::specs::Marking::mark_at))]
pub fn mark_at(marks: &[bool], first: u32, var: u32) -> bool
    ensures { result ≡ mark_at first marks.now var }
{
    first <= var && marks.get((var - first) as usize).copied().unwrap_or(false)
}

/// Marks a variable, if the table covers it.
pub fn mark_variable(marks: &mut [bool], first: u32, var: u32)
    ensures { Marks first marks.old marks.new (λ v. var == v) }
{
    if first <= var && ((var - first) as usize) < marks.len() {
        marks[(var - first) as usize] = true;
    }
}

/// Marks those of the variables that the table covers.
pub fn mark_variables(marks: &mut [bool], first: u32, vars: &[u32])
    ensures { Marks first marks.old marks.new (has vars.now) }
{
    for var in vars {
        mark_variable(marks, first, *var);
    }
}

/// Returns a table of `variables` variables from `first` on, in which those of `vars` are marked.
pub fn marks_of(
    alloc: Global,
    first: u32,
    variables: usize,
    vars: &[u32],
) -> Result<Vec<bool>, NoMemory>
    ensures { IfOk result (λ marks. marks.items ≡ table first variables (has vars.now)) }
{
    let mut marks = vec![in alloc; false; variables]?;
    mark_variables(marks.as_mut_slice(), first, vars);
    Ok(marks)
}
