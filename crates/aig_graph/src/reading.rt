//! The variables that are read from outside of a set. Tables by variable begin at the first latch.
//! A file of 30 bytes can have hundreds of millions of inputs, and they are never in a border.
ghost use Rattle.std.specs.Prelude.{◌≡◌, ◌+◌, ◌≤◌, ◌&&◌, not, length};
ghost use Rattle.std.specs.List.{list_any, flat_map, enumerate_from};
ghost use Rattle.aig_graph.specs.declared.literal.TheConstants.{MAX_VARIABLES};
ghost use Rattle.aig_graph.specs.Graph.{first_latch, first_gate, variables_end};
ghost use Rattle.aig_graph.specs.Streams.{property_literals};
ghost use Rattle.aig_graph.specs.Border.{reads, is_fan_in, is_read_outside};
ghost use Rattle.aig_graph.specs.Marking.{Marks, mark_at};

use crate::graph::{Aig, Gate, Latch};
use crate::literal::Lit;
use crate::properties::Props;
use crate::sequence::Sequence;
use crate::{mark_at, mark_variable};

fn mark_literals(read: &mut [bool], first: u32, lits: &[Lit])
    ensures { Marks first read.old read.new (λ v. list_any (reads v) lits.now) }
{
    for lit in lits {
        mark_variable(read, first, lit.var());
    }
}

fn mark_latches(read: &mut [bool], first: u32, latches: &[Latch])
    ensures { Marks first read.old read.new (λ v. list_any
        (λ latch. reads v latch.next) latches.now) }
{
    for latch in latches {
        mark_variable(read, first, latch.next.var());
    }
}

/// Marks the fan-ins of a gate, unless it is inside.
fn mark_gate(read: &mut [bool], first: u32, inside: bool, gate: Gate)
    ensures { Marks first read.old read.new (λ v. not inside && is_fan_in v gate) }
{
    if !inside {
        mark_variable(read, first, gate.rhs0.var());
        mark_variable(read, first, gate.rhs1.var());
    }
}

fn mark_gates(read: &mut [bool], first: u32, inside: &[bool], first_gate: u32, gates: &[Gate])
    requires { first_gate + length gates.now ≤ MAX_VARIABLES }
    ensures { Marks first read.old read.new
        (λ v. list_any (λ e. not (mark_at first inside.now e.0)
        && is_fan_in v e.1) (enumerate_from first_gate gates.now)) }
{
    for (k, gate) in gates.iter().enumerate() {
        mark_gate(
            read,
            first,
            mark_at(inside, first, first_gate + k as u32),
            *gate,
        );
    }
}

fn mark_justice(read: &mut [bool], first: u32, justice: &[Sequence<Lit>])
    ensures { Marks first read.old read.new (λ v. list_any (reads v)
        (flat_map (λ lits. lits) justice.now)) }
{
    for lits in justice {
        mark_literals(read, first, lits.as_slice());
    }
}

fn mark_props(read: &mut [bool], first: u32, props: &Props)
    ensures { Marks first read.old read.new (λ v. list_any (reads v)
        (property_literals props.now)) }
{
    mark_literals(read, first, props.outputs.as_slice());
    mark_literals(read, first, props.bad.as_slice());
    mark_literals(read, first, props.constraints.as_slice());
    mark_justice(read, first, props.justice.as_slice());
    mark_literals(read, first, props.fairness.as_slice());
}

/// Marks each variable that a gate outside of `inside`, a next literal or a property reads. Both
/// tables are by variable from the first latch on; variables before it are left out. Linear in the
/// graph and its properties.
pub fn mark_read(read: &mut [bool], aig: &Aig, props: &Props, inside: &[bool])
    ensures { Marks (first_latch aig.now) read.old read.new
        (is_read_outside aig.now props.now (mark_at (first_latch aig.now) inside.now)) }
{
    let first = aig.first_latch();
    mark_gates(read, first, inside, aig.first_gate(), aig.gates());
    mark_latches(read, first, aig.latches());
    mark_props(read, first, props);
}
