//! Gates of which no two have the same fan-ins. A gate whose fan-ins say nothing new comes down to
//! a literal, and one with the fan-ins of an earlier gate to that gate's. That one is looked for on
//! the list of the gates that have its larger fan-in, of which there are few. What would make a
//! list longer than `LONGEST` stands in a hash table. No contract says that it is found: what is
//! proved of a gate's literal doesn't rest on it.
ghost use Rattle.std.specs.Prelude.{ℕ, ◌≡◌, ◌+◌, ◌≤◌, ◌<◌, [], IfOk, IfSome, OnOk, Some, length, slice_get};
ghost use Rattle.aig_graph.specs.declared.literal.TheConstants.{MAX_VARIABLES};
ghost use Rattle.aig_graph.specs.declared.graph.Latch.{Latch};
ghost use Rattle.aig_graph.specs.Graph.{IsGateAt};
ghost use Rattle.aig_graph.specs.Gates.{Grows, gates_end};
ghost use Rattle.gate_sharing.specs.Shared.{IsBoth, IsFolded, IsSharedLiteral};

use crate::errors::SharingError;
use aig_graph::{Aig, Gate, Latch, Lit, MAX_VARIABLES, NoMemory};
use indexmap::IndexMap;
use std::alloc::Global;
use std::marker::Model;

/// How many gates a list takes.
const LONGEST: u8 = 32;

/// The list of a variable that no gate has as its larger fan-in.
const NO_LIST: GateList = GateList {
    last: 0,
    smaller: Lit::FALSE,
    length: 0,
};

/// A gate, and the link to the one before it in its list: its place plus one, and 0 at the end of
/// the list.
#[derive(Clone, Copy)]
pub(crate) struct SharedGate {
    pub(crate) gate: Gate,
    pub(crate) before: u32,
}

/// The link to the last gate of a list, that gate's smaller fan-in, and how many gates it has. So
/// most gates that aren't there are known not to be by the list alone. The larger fan-ins of a list
/// are of one variable, but may differ in their signs.
#[derive(Clone, Copy)]
struct GateList {
    last: u32,
    smaller: Lit,
    length: u8,
}

/// Gates, which are numbered from a first variable on.
pub struct SharedGates {
    first: u32,
    gates: Vec<SharedGate>,
    /// By variable, as far as there are any.
    lists: Vec<GateList>,
    /// The places of the gates that no list took.
    rest: IndexMap<Gate, usize>,
}

impl Drop for SharedGates {
    // written out: docs/PROOFS.md, Drops and exits
    fn drop(self) {
        let SharedGates {
            first: _first,
            gates: _gates,
            lists: _lists,
            rest: _rest,
        } = self;
    }
}

impl Model for SharedGates {
    ghost use Rattle.aig_graph.specs.Gates.{AreGates, Gates};
    ghost use Rattle.gate_sharing.specs.Shared.{shared_gates};

    ghost Value = { Gates };

    ghost view = { λ s. record { first = s.first; gates = shared_gates s.gates.items } };

    ghost invariant = { λ s. AreGates (record { first = s.first; gates = shared_gates s.gates.items }) };
}

/// Returns the literal that a gate comes down to, whatever its fan-ins are.
fn folded(gate: &Gate) -> Option<Lit>
    ensures { IfSome result (IsFolded gate.now) }
{
    if gate.rhs1 == Lit::FALSE {
        Some(Lit::FALSE)
    } else if gate.rhs1 == Lit::TRUE {
        Some(gate.rhs0)
    } else if gate.rhs0 == gate.rhs1 {
        Some(gate.rhs0)
    } else if gate.rhs0.var() == gate.rhs1.var() {
        Some(Lit::FALSE)
    } else {
        None
    }
}

impl SharedGates {
    ghost use Rattle.aig_graph.specs.Gates.{AreGates, gates_of};

    /// Returns shared gates of which there are none yet, after `first` variables.
    pub fn after(alloc: Global, first: u32) -> SharedGates
        requires { first ≤ MAX_VARIABLES }
        ensures { result ≡ record { first = first; gates = [] } }
    {
        SharedGates {
            first,
            gates: Vec::new(alloc),
            lists: Vec::new(alloc),
            rest: IndexMap::new(alloc),
        }
    }

    /// Makes known what holds of all shared gates. Costs nothing.
    pub fn known(&self)
        ensures { AreGates self.now }
    {
        let _gates = self.gates.as_slice();
    }

    /// Returns the place of a gate, if a link leads to it.
    fn linked_to(&self, link: u32, gate: &Gate) -> Option<usize>
        ensures { IfSome result (λ place. slice_get self.now.gates place ≡ Some gate.now) }
    {
        if link == 0 {
            return None;
        }
        let place = (link - 1) as usize;
        let shared = self.gates.get(place)?;
        if shared.gate == *gate {
            Some(place)
        } else {
            None
        }
    }

    /// Returns the link that leads on from the gate to which a link leads.
    fn link_before(&self, link: u32) -> u32 {
        if link == 0 {
            return 0;
        }
        match self.gates.get((link - 1) as usize) {
            Some(shared) => shared.before,
            None => 0,
        }
    }

    /// Returns the place of a gate on the list of its larger fan-in, before the last gate of it.
    fn listed_before(&self, list: GateList, gate: &Gate) -> Option<usize>
        ensures { IfSome result (λ place. slice_get self.now.gates place ≡ Some gate.now) }
    {
        let mut link = list.last;
        for _ in 1..list.length {
            link = self.link_before(link);
            if let Some(place) = self.linked_to(link, gate) {
                return Some(place);
            }
        }
        None
    }

    /// Returns the place of a gate on the list of its larger fan-in.
    fn listed(&self, gate: &Gate) -> Option<usize>
        ensures { IfSome result (λ place. slice_get self.now.gates place ≡ Some gate.now) }
    {
        let var = gate.rhs0.var() as usize;
        if var >= self.lists.len() {
            return None;
        }
        let list = self.lists[var];
        if list.smaller == gate.rhs1 {
            if let Some(place) = self.linked_to(list.last, gate) {
                return Some(place);
            }
        }
        self.listed_before(list, gate)
    }

    /// Returns the place of a gate that no list took.
    fn unlisted(&self, gate: &Gate) -> Option<usize>
        ensures { IfSome result (λ place. slice_get self.now.gates place ≡ Some gate.now) }
    {
        let place = *self.rest.get(gate)?;
        let shared = self.gates.get(place)?;
        if shared.gate == *gate {
            Some(place)
        } else {
            None
        }
    }

    /// Returns the place of a gate, if it is found.
    fn found(&self, gate: &Gate) -> Option<usize>
        ensures { IfSome result (λ place. slice_get self.now.gates place ≡ Some gate.now) }
    {
        match self.listed(gate) {
            Some(place) => Some(place),
            None => self.unlisted(gate),
        }
    }

    /// Links the gate that is put next, so that it is found. Returns the link that leads on from
    /// it.
    fn linked(&mut self, gate: &Gate) -> Result<u32, SharingError>
        requires { gates_end self.old < MAX_VARIABLES }
        ensures { OnOk result (self.new ≡ self.old) }
    {
        let place = self.gates.len();
        let var = gate.rhs0.var() as usize;
        if self.lists.len() <= var {
            self.lists.resize(var + 1, NO_LIST)?;
        }
        let list = self.lists[var];
        if list.length >= LONGEST {
            self.rest.insert(*gate, place)?;
            return Ok(0);
        }
        self.lists[var] = GateList {
            last: (place + 1) as u32,
            smaller: gate.rhs1,
            length: list.length + 1,
        };
        Ok(list.last)
    }

    /// Puts a gate after the others: its place.
    fn add(&mut self, gate: Gate) -> Result<usize, SharingError>
        requires room { gates_end self.old < MAX_VARIABLES }
        requires at { IsGateAt (gates_end self.old) gate }
        ensures grows { OnOk result (Grows self.old self.new) }
        ensures is { IfOk result (λ place. slice_get self.new.gates place ≡ Some gate) }
    {
        let before = self.linked(&gate)?;
        let place = self.gates.len();
        self.gates.push(SharedGate { gate, before })?;
        Ok(place)
    }

    /// Returns the place of a gate, which is put after the others if it isn't found.
    fn place_of(&mut self, gate: Gate) -> Result<usize, SharingError>
        requires room { gates_end self.old < MAX_VARIABLES }
        requires at { IsGateAt (gates_end self.old) gate }
        ensures grows { OnOk result (Grows self.old self.new) }
        ensures is { IfOk result (λ place. slice_get self.new.gates place ≡ Some gate) }
    {
        match self.found(&gate) {
            Some(place) => Ok(place),
            None => self.add(gate),
        }
    }

    /// Returns the literal of a gate that comes down to none of the others', unless one has its
    /// fan-ins.
    fn numbered(&mut self, gate: Gate) -> Result<Lit, SharingError>
        requires at { IsGateAt (gates_end self.old) gate }
        ensures grows { OnOk result (Grows self.old self.new) }
        ensures is { IfOk result (IsBoth self.new gate.rhs0 gate.rhs1) }
    {
        if self.first as usize + self.gates.len() >= MAX_VARIABLES {
            return Err(SharingError::TooLarge);
        }
        let place = self.place_of(gate)?;
        Ok(Lit::new(self.first + place as u32, false))
    }

    /// Returns the literal of the conjunction of two literals.
    pub fn gate(&mut self, a: Lit, b: Lit) -> Result<Lit, SharingError>
        requires a { IsSharedLiteral self.old a }
        requires b { IsSharedLiteral self.old b }
        ensures grows { OnOk result (Grows self.old self.new) }
        ensures is { IfOk result (IsBoth self.new a b) }
    {
        let gate = Gate::of(a, b);
        match folded(&gate) {
            Some(lit) => Ok(lit),
            None => self.numbered(gate),
        }
    }

    /// Returns a graph of the gates and of these latches, which are the last variables before the
    /// gates. The other variables are inputs. Takes linear time.
    pub fn graph(&self, alloc: Global, latches: Vec<Latch>) -> Result<Aig, NoMemory>
        requires room { 1 + length latches.items ≤ self.now.first }
        requires nexts { (place : ℕ) (latch : Latch) → slice_get latches.items place ≡ Some latch
            → IsSharedLiteral self.now latch.next }
        ensures gates { IfOk result (λ aig. gates_of aig ≡ self.now) }
        ensures latches { IfOk result (λ aig. aig.latches ≡ latches.items) }
    {
        let inputs = self.first - 1 - latches.len() as u32;
        let mut gates = Vec::with_capacity(alloc, self.gates.len())?;
        for shared in self.gates.as_slice() {
            gates.push(shared.gate)?;
        }
        Ok(Aig::from_parts(inputs, latches, gates))
    }
}
