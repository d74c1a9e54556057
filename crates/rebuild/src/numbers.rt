//! Numbers after a move, for each latch and gate. One is read in its place from outside the set,
//! and one has now its value of one step later. A loop over the latches and one over the gates make
//! each table, and look at marks alone. Who asks for a number then looks at one entry.
ghost use Rattle.std.specs.Prelude.{◌≡◌, ◌*◌, ◌+◌, ◌<◌, ◌≤◌, IfOk, [], true, vec_capacity, if◌then◌else◌};
ghost use Rattle.aig_graph.specs.declared.literal.TheConstants.{MAX_VARIABLES};
ghost use Rattle.aig_graph.specs.Graph.{variable, variables_end};
ghost use Rattle.aig_graph.specs.Counting.{count_below};
ghost use Rattle.aig_graph.specs.Marking.{has};
ghost use Rattle.rebuild.specs.Entries.{by_variable};
ghost use Rattle.rebuild.specs.Moved.{advanced, copies_start, gates_start, moved_literal, new_variable};
ghost use Rattle.rebuild.specs.Planned.{marked};

use crate::marks::MarkedSet;
use aig_graph::{Lit, NoMemory, entry};

/// Returns 1 if the mark is set, else 0.
fn one_if(mark: bool) -> u32
    ensures value { result ≡ (if mark then 1 else 0) }
    ensures small { result ≤ 1 }
{
    u32::from(mark)
}

/// Returns the number of a variable's latch if it has one after the move. Otherwise returns that of
/// its gate if this is outside the set, else its own.
fn number_of(latched: bool, outside: bool, latch: u32, gate: u32, own: u32) -> u32
    ensures { result ≡ (if latched then latch else (if outside then gate else own)) }
{
    if latched {
        latch
    } else if outside {
        gate
    } else {
        own
    }
}

/// Returns an empty table with room for `room` entries, in the memory of another one.
fn emptied<T: Drop>(memory: Vec<T>, room: usize) -> Result<Vec<T>, NoMemory>
    ensures none { IfOk result (λ table. table.items ≡ []) }
    ensures room { IfOk result (λ table. room ≤ vec_capacity table) }
{
    let mut table = memory;
    table.clear();
    table.reserve(room)?;
    Ok(table)
}

/// Returns the variable that is read in the place of each from outside the set, in the memory of a
/// table. The gates outside it count up from `start`.
pub(crate) fn new_variables(
    memory: Vec<u32>,
    marks: &MarkedSet<'_>,
    start: u32,
) -> Result<Vec<u32>, NoMemory>
    requires { start ≡ gates_start (marked marks.now) }
    ensures { IfOk result (λ numbers. numbers.items
        ≡ by_variable (marked marks.now).circuit.aig (new_variable (marked marks.now))) }
{
    let latched = marks.latched.as_slice();
    let members = marks.members.as_slice();
    let latches = marks.aig().latches().len();
    let mut numbers = emptied(memory, latched.len())?;
    let mut latch = marks.first;
    for k in 0..latches {
        let own = marks.first + k as u32;
        numbers.push_reserved(number_of(latched[k], false, latch, start, own));
        latch += one_if(latched[k]);
    }
    let mut gate = start;
    for k in latches..latched.len() {
        let own = marks.first + k as u32;
        numbers.push_reserved(number_of(latched[k], !members[k], latch, gate, own));
        latch += one_if(latched[k]);
        gate += one_if(!members[k]);
    }
    Ok(numbers)
}

/// Returns the literal that is read in the place of `lit` from outside the set, by the table of
/// variables.
pub(crate) fn renamed(marks: &MarkedSet<'_>, variables: &[u32], lit: Lit) -> Lit
    requires table { variables.now
        ≡ by_variable (marked marks.now).circuit.aig (new_variable (marked marks.now)) }
    requires room { copies_start (marked marks.now) + count_below (has (marked marks.now).set)
        (variables_end (marked marks.now).circuit.aig) ≤ MAX_VARIABLES }
    requires known { variable lit < variables_end (marked marks.now).circuit.aig }
    ensures { result ≡ moved_literal (marked marks.now) lit }
{
    let first = marks.first;
    if lit.var() < first {
        return lit;
    }
    let var = entry(variables, first, lit.var());
    Lit::new(var, false).signed_as(lit)
}

/// Returns the literal of a member's copy, or false for a gate that isn't a member.
fn copy_of(member: bool, copy: u32) -> Lit
    requires { member ≡ true → copy < MAX_VARIABLES }
    ensures { result ≡ (if member then 2 * copy else 0) }
{
    if member {
        Lit::new(copy, false)
    } else {
        Lit::FALSE
    }
}

/// Returns for each variable the literal that has now the variable's value of one step later. A
/// latch has its next literal, a member its copy, and the copies count up from `start`. Other gates
/// have false, since copies read none. The table is made in the memory of another one.
pub(crate) fn advanced_literals(
    memory: Vec<Lit>,
    marks: &MarkedSet<'_>,
    variables: &[u32],
    start: u32,
) -> Result<Vec<Lit>, NoMemory>
    requires table { variables.now
        ≡ by_variable (marked marks.now).circuit.aig (new_variable (marked marks.now)) }
    requires start { start ≡ copies_start (marked marks.now) }
    requires room { copies_start (marked marks.now) + count_below (has (marked marks.now).set)
        (variables_end (marked marks.now).circuit.aig) ≤ MAX_VARIABLES }
    ensures { IfOk result (λ literals. literals.items
        ≡ by_variable (marked marks.now).circuit.aig (advanced (marked marks.now))) }
{
    let latches = marks.aig().latches();
    let members = marks.members.as_slice();
    let mut literals = emptied(memory, members.len())?;
    for latch in latches {
        literals.push_reserved(renamed(marks, variables, latch.next));
    }
    let mut copy = start;
    for k in latches.len()..members.len() {
        literals.push_reserved(copy_of(members[k], copy));
        copy += one_if(members[k]);
    }
    Ok(literals)
}
