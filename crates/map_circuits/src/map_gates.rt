//! The gates of a map: over inputs alone, as the bytes that they are written as. Those of a set are
//! added in room that is asked for before.
ghost use Rattle.std.specs.Prelude.{ℕ, ◌≡◌, ◌+◌, ◌*◌, ◌<◌, ◌≤◌, ◌↔◌, [], All, IfOk, IsErrOf, List, OnOk, length, vec_capacity};
ghost use Rattle.aig_graph.specs.Building.{gate_of, with_gate, without_gates};
ghost use Rattle.aig_graph.specs.Closed.{IsClosedSet};
ghost use Rattle.aig_graph.specs.Graph.{IsGraph, IsLiteralOf, first_gate, first_latch, variables_end};
ghost use Rattle.aig_graph.specs.declared.build.BuildError.TheVariants.{TooLarge};
ghost use Rattle.aig_graph.specs.declared.literal.TheConstants.{MAX_VARIABLES};
ghost use Rattle.aig_binary.specs.Text.{gate_deltas};
ghost use Rattle.counted_io.specs.Line.{numbered_lines};
ghost use Rattle.map_circuits.specs.Following.{AreWithin, Follows};
ghost use Rattle.map_circuits.specs.Growing.{Extends, IsConjunction, IsEquality};
ghost use Rattle.map_circuits.specs.Packing.{ArePacked, packed};
ghost use Rattle.map_circuits.specs.declared.packing.TheConstants.{GATE_BYTES};

use crate::packing::{
    append_gate, append_reserved, keep_heap, leave_room, put_gate, reserve_gates,
};
use crate::standing::standing;
use aig_graph::{Aig, BuildError, ClosedSet, Gate, Keep, Lit, MAX_VARIABLES};
use std::alloc::Global;
use std::marker::Model;

/// How many bytes of gates are gathered before they are appended.
const CHUNK: usize = 640;

/// Gates over inputs alone, in growing number. They are kept as the deltas of the binary form: it
/// costs some three bytes a gate to have them, and nothing to write them.
#[derive(Drop)]
pub struct MapGates {
    inputs: u32,
    count: u32,
    deltas: Vec<u8>,
}

impl Model for MapGates {
    ghost use Rattle.aig_graph.specs.Graph.{Graph};
    ghost use Rattle.map_circuits.specs.Packing.{ArePacked, packed};

    ghost Value = { Graph };

    ghost view = { λ m. packed m.inputs m.deltas.items };

    ghost invariant = { λ m. ArePacked m.inputs m.count m.deltas.items };
}

impl MapGates {
    /// Returns an empty list of gates over `inputs` inputs.
    pub fn new(alloc: Global, inputs: u32) -> MapGates
        requires { inputs < MAX_VARIABLES }
        ensures { result ≡ without_gates inputs [] }
    {
        keep_heap(alloc);
        MapGates {
            inputs,
            count: 0,
            deltas: Vec::new(alloc),
        }
    }

    /// States what holds of all such gates. Costs nothing: a caller sees the value alone, and has
    /// its invariant by this call.
    pub fn known(&self)
        ensures graph { IsGraph self.now }
        ensures latches { self.now.latches ≡ [] }
    {
        let _deltas = self.deltas.as_slice();
    }

    /// Returns the number of inputs.
    pub fn inputs(&self) -> u32
        ensures { result ≡ self.now.inputs }
    {
        self.inputs
    }

    /// Returns the number of gates.
    pub fn count(&self) -> u32
        ensures { result ≡ length self.now.gates }
    {
        self.count
    }

    /// Returns the bytes of the gates in the binary form.
    pub fn deltas(&self) -> &[u8]
        ensures { result.now ≡ numbered_lines gate_deltas (first_gate self.now) self.now.gates }
    {
        self.deltas.as_slice()
    }

    /// Adds the gate of two literals, and returns its literal. After an `Err` the gates are as they
    /// were.
    fn and(&mut self, a: Lit, b: Lit) -> Result<Lit, BuildError>
        requires a { IsLiteralOf self.old a }
        requires b { IsLiteralOf self.old b }
        ensures ok { OnOk result (self.new ≡ with_gate self.old (gate_of a b)) }
        ensures literal { IfOk result (λ lit. lit ≡ 2 * variables_end self.old) }
        ensures small { OnOk result (variables_end self.old < MAX_VARIABLES) }
        ensures large { IsErrOf result TooLarge ↔ (variables_end self.old ≡ MAX_VARIABLES) }
    {
        let variable = 1 + self.inputs + self.count;
        if variable as usize == MAX_VARIABLES {
            return Err(BuildError::TooLarge);
        }
        append_gate(&mut self.deltas, variable, Gate::of(a, b))?;
        self.count += 1;
        Ok(Lit::new(variable, false))
    }

    /// Adds the conjunction of two literals.
    fn add_conjunction(&mut self, a: Lit, b: Lit) -> Result<Lit, BuildError>
        requires graph { IsGraph self.old }
        requires a { IsLiteralOf self.old a }
        requires b { IsLiteralOf self.old b }
        ensures extends { OnOk result (Extends self.old self.new) }
        ensures is { IfOk result (IsConjunction self.new a b) }
        ensures one { OnOk result (variables_end self.new ≡ variables_end self.old + 1) }
        ensures large { IsErrOf result TooLarge ↔ (variables_end self.old ≡ MAX_VARIABLES) }
    {
        let lit = self.and(a, b)?;
        Ok(lit)
    }

    /// Adds what says that two literals are equal, by three gates.
    fn add_comparison(&mut self, a: Lit, b: Lit) -> Result<Lit, BuildError>
        requires graph { IsGraph self.old }
        requires a { IsLiteralOf self.old a }
        requires b { IsLiteralOf self.old b }
        ensures extends { OnOk result (Extends self.old self.new) }
        ensures is { IfOk result (IsEquality self.new a b) }
        ensures large { IsErrOf result TooLarge → MAX_VARIABLES < variables_end self.old + 3 }
    {
        let above = self.add_conjunction(a, b.not())?;
        let below = self.add_conjunction(a.not(), b)?;
        let both = self.add_conjunction(below.not(), above.not())?;
        Ok(both)
    }

    /// Returns the literal that says that two literals are equal, as
    /// [`add_equality`](crate::add_equality) does.
    pub(crate) fn add_equality(&mut self, a: Lit, b: Lit) -> Result<Lit, BuildError>
        requires graph { IsGraph self.old }
        requires a { IsLiteralOf self.old a }
        requires b { IsLiteralOf self.old b }
        ensures extends { OnOk result (Extends self.old self.new) }
        ensures is { IfOk result (IsEquality self.new a b) }
        ensures large { IsErrOf result TooLarge → MAX_VARIABLES < variables_end self.old + 3 }
    {
        if b == Lit::TRUE {
            Ok(a)
        } else if b == Lit::FALSE {
            Ok(a.not())
        } else {
            self.add_comparison(a, b)
        }
    }

    /// Adds the functions of the gates of a set, beside those of the latches, by variable from the
    /// first latch on. The entries of other gates, which no member reads, stay.
    pub(crate) fn add_functions(
        &mut self,
        literals: &mut [Lit],
        aig: &Aig,
        set: &ClosedSet,
        keep: &Keep,
    ) -> Result<(), BuildError>
        requires closed { IsClosedSet aig.now keep.now set.now }
        requires long { first_latch aig.now + length literals.old ≡ variables_end aig.now }
        requires within { AreWithin self.old aig.now set.now (first_gate aig.now) literals.old }
        ensures extends { OnOk result (Extends self.old self.new) }
        ensures follows { OnOk result ((functions : List ℕ)
            → Follows self.old functions aig.now set.now (first_gate aig.now) self.old literals.old
            → Follows self.old functions aig.now set.now (variables_end aig.now) self.new
            literals.new) }
        ensures large { IsErrOf result TooLarge
            ↔ (MAX_VARIABLES < variables_end self.old + length set.now) }
    {
        let more = set.vars().len();
        if more > MAX_VARIABLES - 1 - self.inputs as usize - self.count as usize {
            return Err(BuildError::TooLarge);
        }
        reserve_gates(&mut self.deltas, more)?;
        add_in_room(
            &mut self.deltas,
            self.inputs,
            self.count,
            literals,
            aig,
            set,
            keep,
        );
        self.count += more as u32;
        Ok(())
    }
}

/// Adds the functions as [`MapGates::add_functions`] does, in bytes that have room for a gate for
/// each member of the set. `count` is the number of gates before. The compiler keeps it a function
/// of its own, whose loop has the registers for itself.
#[inline(never)]
fn add_in_room(
    deltas: &mut Vec<u8>,
    inputs: u32,
    count: u32,
    literals: &mut [Lit],
    aig: &Aig,
    set: &ClosedSet,
    keep: &Keep,
)
    requires packed { ArePacked inputs count deltas.old.items }
    requires closed { IsClosedSet aig.now keep.now set.now }
    requires room { length deltas.old.items + GATE_BYTES * length set.now
        ≤ vec_capacity deltas.old }
    requires small { 1 + inputs + count + length set.now ≤ MAX_VARIABLES }
    requires long { first_latch aig.now + length literals.old ≡ variables_end aig.now }
    requires within { AreWithin (packed inputs deltas.old.items) aig.now set.now
        (first_gate aig.now) literals.old }
    ensures packed { ArePacked inputs (count + length set.now) deltas.new.items }
    ensures extends { Extends (packed inputs deltas.old.items) (packed inputs deltas.new.items) }
    ensures follows { (functions : List ℕ)
        → Follows (packed inputs deltas.old.items) functions aig.now set.now
        (first_gate aig.now) (packed inputs deltas.old.items) literals.old
        → Follows (packed inputs deltas.old.items) functions aig.now set.now
        (variables_end aig.now) (packed inputs deltas.new.items) literals.new }
{
    let _keep = keep;
    let first = aig.first_latch();
    let start = aig.first_gate();
    let own = aig.gates();
    let mut next = 1 + inputs + count;
    let mut chunk = [0; CHUNK];
    let mut waiting = 0;
    for var in set.vars() {
        let place = (*var - first) as usize;
        let gate = own[(*var - start) as usize];
        let a = standing(literals, first, gate.rhs0);
        let b = standing(literals, first, gate.rhs1);
        let at = leave_room(deltas, &chunk, waiting);
        waiting = put_gate(&mut chunk, at, next, Gate::of(a, b));
        literals[place] = Lit::new(next, false);
        next += 1;
    }
    append_reserved(deltas, &chunk[..waiting]);
}
