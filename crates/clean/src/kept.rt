//! Gates with an entry each, some of which are kept, by linked lists of the kept ones that have one
//! larger fan-in. In circuits these are few, so a look at one or two gates takes the place of a
//! hash. A list takes `LONGEST` gates at most. Gates that would make it longer, and gates that read
//! inputs alone, stand in a hash table. The place of a gate is for speed alone: it is looked for in
//! both. Entries are written over a table of gates from its first place on, so new fan-ins take the
//! places of old ones.
ghost use Rattle.std.specs.Prelude.{◌≡◌, ◌+◌, ◌*◌, ◌<◌, ◌≤◌, ◌^◌, ◌++◌, ◌∷◌, [], None, IfOk, IfSome, OnErr, OnOk, get_or, length, replicate};
ghost use Rattle.std.specs.Map.{lookup};
ghost use Rattle.cleaned_circuits.specs.Merged.{same_fan_ins};
ghost use Rattle.aig_graph.specs.Graph.{variable};
ghost use Rattle.clean.specs.Kept.{pairs, link_before, next_variable, no_gate, last_of, listed, put_at, IsEntered, IsListOf, SameLists};

use aig_graph::{Aig, Gate, Lit, NoMemory};
use indexmap::IndexMap;
use std::alloc::Global;
use std::marker::Model;
use std::mem;

/// How many gates a list takes.
const LONGEST: u32 = 32;

/// The link of a kept gate that has none before it in its list.
const END: u32 = 1;

/// Tables of links whose values don't matter.
#[derive(Drop)]
pub(crate) struct Links {
    before: Vec<u32>,
    lists: Vec<u32>,
}

impl Links {
    /// Returns empty tables. Takes no memory.
    pub(crate) fn none(alloc: Global) -> Links {
        Links {
            before: Vec::new(alloc),
            lists: Vec::new(alloc),
        }
    }

    /// Takes the tables out, and leaves empty ones.
    pub(crate) fn take(&mut self, alloc: Global) -> Links {
        mem::replace(self, Links::none(alloc))
    }

    /// Puts `entries` lists in the place of these, each empty, and makes room for links of `gates`
    /// gates.
    fn clear(&mut self, gates: usize, entries: usize) -> Result<(), NoMemory>
        ensures before { OnOk result (self.new.before.items ≡ []) }
        ensures lists { OnOk result (self.new.lists.items ≡ replicate entries 0) }
    {
        self.before.clear();
        self.lists.clear();
        self.before.reserve(gates)?;
        self.lists.resize(entries, 0)?;
        Ok(())
    }
}

/// Gates by entry, whose variables rise by one from entry to entry. Some of them are kept.
pub struct KeptGates {
    first: u32,
    /// The variable of the first entry.
    own: u32,
    /// By entry its gate. Gates that have no entry yet may follow.
    gates: Vec<Gate>,
    /// By entry 0 if the gate isn't kept, else the link to the kept gate before it in its list. A
    /// link is an entry's number plus two.
    before: Vec<u32>,
    /// By variable from the first latch on, the link to the last gate that has it as its larger
    /// fan-in. 0 if there is none.
    lists: Vec<u32>,
    rest: IndexMap<Gate, Lit>,
}

impl Drop for KeptGates {
    // written out: docs/PROOFS.md, Drops and exits
    fn drop(self) {
        let KeptGates {
            first: _first,
            own: _own,
            gates: _gates,
            before: _before,
            lists: _lists,
            rest: _rest,
        } = self;
    }
}

impl Model for KeptGates {
    ghost use Rattle.clean.specs.Kept.{Kept, AreKept};

    ghost Value = { Kept };

    ghost view = { λ k. record {
      first = k.first;
      own = k.own;
      gates = k.gates.items;
      before = k.before.items;
      lists = k.lists.items;
      rest = k.rest.entries;
    } };

    ghost invariant = { λ k. AreKept (record {
      first = k.first;
      own = k.own;
      gates = k.gates.items;
      before = k.before.items;
      lists = k.lists.items;
      rest = k.rest.entries;
    }) };
}

/// Puts a gate into a table that hasn't got it.
fn insert_new(rest: &mut IndexMap<Gate, Lit>, gate: Gate, lit: Lit) -> Result<(), NoMemory>
    requires { lookup (same_fan_ins gate) rest.old.entries ≡ None }
    ensures ok { OnOk result (rest.new.entries ≡ rest.old.entries ++ (gate, lit) ∷ []) }
    ensures err { OnErr result (rest.new.entries ≡ rest.old.entries) }
{
    rest.insert(gate, lit)?;
    Ok(())
}

/// Adds empty lists until there are `count`.
fn widen(lists: &mut Vec<u32>, count: usize) -> Result<(), NoMemory>
    ensures { SameLists lists.old.items lists.new.items }
{
    for _ in lists.len()..count {
        lists.push(0)?;
    }
    Ok(())
}

/// Returns the link of a kept gate, by the former link of its list.
fn link_before(last: u32) -> u32
    ensures { result ≡ link_before last }
{
    if last == 0 { END } else { last }
}

/// Writes a gate at a place, or after the last one.
fn put(gates: &mut Vec<Gate>, place: usize, gate: Gate) -> Result<(), NoMemory>
    ensures ok { OnOk result (gates.new.items ≡ put_at gates.old.items place gate) }
    ensures err { OnErr result (gates.new.items ≡ gates.old.items) }
{
    if place < gates.len() {
        gates[place] = gate;
    } else {
        gates.push(gate)?;
    }
    Ok(())
}

impl KeptGates {
    /// Returns gates without an entry, of a circuit with this graph's variables, over a table of
    /// gates. The first entry is to have the variable `own`.
    pub fn over(alloc: Global, aig: &Aig, own: u32, gates: Vec<Gate>) -> Result<KeptGates, NoMemory>
        requires { own ≤ 2 ^ 28 }
        ensures pairs { IfOk result (λ kept. pairs kept ≡ []) }
        ensures next { IfOk result (λ kept. next_variable kept ≡ own) }
        ensures before { IfOk result (λ kept. kept.before ≡ []) }
        ensures gates { IfOk result (λ kept. kept.gates ≡ gates.items) }
    {
        let first = aig.first_latch();
        let before = Vec::with_capacity(alloc, aig.gates().len())?;
        let lists = vec![in alloc; 0; aig.latches_and_gates()]?;
        Ok(KeptGates {
            first,
            own,
            gates,
            before,
            lists,
            rest: IndexMap::new(alloc),
        })
    }

    /// Returns gates without an entry as [`over`](KeptGates::over) does, with links in the memory
    /// of others. The circuit's first latch has the variable `first`.
    pub(crate) fn with_links(
        alloc: Global,
        first: u32,
        own: u32,
        gates: Vec<Gate>,
        links: Links,
    ) -> Result<KeptGates, NoMemory>
        requires first { first ≤ own }
        requires few { own + length gates.items ≤ 2 ^ 28 }
        ensures pairs { IfOk result (λ kept. pairs kept ≡ []) }
        ensures next { IfOk result (λ kept. next_variable kept ≡ own) }
        ensures before { IfOk result (λ kept. kept.before ≡ []) }
        ensures gates { IfOk result (λ kept. kept.gates ≡ gates.items) }
    {
        let mut links = links;
        let entries = (own - first) as usize + gates.len();
        links.clear(gates.len(), entries)?;
        let Links { before, lists } = links;
        Ok(KeptGates {
            first,
            own,
            gates,
            before,
            lists,
            rest: IndexMap::new(alloc),
        })
    }

    /// Returns the gates, both those that have an entry and those that have none, and the tables of
    /// links.
    pub(crate) fn into_parts(self) -> (Vec<Gate>, Links)
        ensures { result.0.items ≡ self.gates }
    {
        let KeptGates {
            first: _first,
            own: _own,
            gates,
            before,
            lists,
            rest: _rest,
        } = self;
        (gates, Links { before, lists })
    }

    /// Returns the number of gates, with those that have no entry yet.
    pub(crate) fn len(&self) -> usize
        ensures { result ≡ length self.now.gates }
    {
        self.gates.len()
    }

    /// Returns the gate at a place.
    pub(crate) fn gate(&self, place: usize) -> Gate
        requires { place < length self.now.gates }
        ensures { result ≡ get_or self.now.gates place no_gate }
    {
        self.gates[place]
    }

    /// Returns the variable of the next entry.
    pub fn next_variable(&self) -> u32
        ensures value { result ≡ next_variable self.now }
        ensures few { result ≤ 2 ^ 28 }
    {
        self.own + self.before.len() as u32
    }

    /// Returns the link to the last gate of a variable's list.
    #[tactic(auto, unfolding(crate::specs::Kept::last_of))]
    fn last_of(&self, var: u32) -> u32
        ensures { result ≡ last_of self.now var }
    {
        if var < self.first {
            0
        } else {
            let place = (var - self.first) as usize;
            self.lists.get(place).copied().unwrap_or(0)
        }
    }

    /// Returns the literal of the gate of these literals on the list of its larger fan-in.
    fn listed(&self, gate: Gate) -> Option<Lit>
        ensures { result ≡ listed self.now gate }
    {
        let mut link = self.last_of(gate.rhs0.var());
        while link > END {
            let entry = link - 2;
            if gate == self.gates[entry as usize] {
                return Some(Lit::new(self.own + entry, false));
            }
            link = self.before[entry as usize];
        }
        None
    }

    /// Returns the literal of the kept gate of these literals.
    pub fn find(&self, gate: Gate) -> Option<Lit>
        ensures { result ≡ lookup (same_fan_ins gate) (pairs self.now) }
    {
        match self.listed(gate) {
            Some(lit) => Some(lit),
            None => self.rest.get(&gate).copied(),
        }
    }

    /// Returns the index of a variable's list, if that takes one more gate.
    fn room_of(&self, var: u32) -> Option<usize>
        ensures { IfSome result (λ place. IsListOf self.now var place) }
    {
        if var < self.first {
            return None;
        }
        let place = (var - self.first) as usize;
        if place >= self.lists.len() {
            return None;
        }
        if self.is_short(self.lists[place]) {
            Some(place)
        } else {
            None
        }
    }

    /// Returns true if the list that a link begins takes one more gate.
    fn is_short(&self, last: u32) -> bool {
        let mut link = last;
        for _ in 0..LONGEST {
            if link <= END {
                return true;
            }
            let entry = (link - 2) as usize;
            if entry >= self.before.len() {
                return true;
            }
            link = self.before[entry];
        }
        link <= END
    }

    /// Gives a variable a list, if it comes after those of the circuit.
    pub fn cover(&mut self, var: u32) -> Result<(), NoMemory>
        ensures pairs { pairs self.new ≡ pairs self.old }
        ensures next { next_variable self.new ≡ next_variable self.old }
    {
        widen(&mut self.lists, var.saturating_sub(self.first) as usize + 1)
    }

    /// Gives a gate the next entry, kept on the list at a place, which is that of its larger
    /// fan-in.
    fn add_to_list(&mut self, place: usize, gate: Gate) -> Result<(), NoMemory>
        requires new { lookup (same_fan_ins gate) (pairs self.old) ≡ None }
        requires list { IsListOf self.old (variable gate.rhs0) place }
        requires few { next_variable self.old < 2 ^ 28 }
        ensures pairs { OnOk result (pairs self.new ≡
            pairs self.old ++ (gate, 2 * next_variable self.old) ∷ []) }
        ensures entered { OnOk result (IsEntered self.old self.new gate) }
    {
        let before = link_before(self.lists[place]);
        put(&mut self.gates, self.before.len(), gate)?;
        self.before.push(before)?;
        self.lists[place] = self.before.len() as u32 + 1;
        Ok(())
    }

    /// Gives a gate the next entry, kept in the hash table.
    fn add_to_rest(&mut self, gate: &Gate) -> Result<(), NoMemory>
        requires new { lookup (same_fan_ins gate.now) (pairs self.old) ≡ None }
        requires few { next_variable self.old < 2 ^ 28 }
        ensures pairs { OnOk result (pairs self.new ≡
            pairs self.old ++ (gate.now, 2 * next_variable self.old) ∷ []) }
        ensures entered { OnOk result (IsEntered self.old self.new gate.now) }
    {
        let lit = Lit::new(self.next_variable(), false);
        put(&mut self.gates, self.before.len(), *gate)?;
        self.before.reserve(1)?;
        insert_new(&mut self.rest, *gate, lit)?;
        self.before.push_reserved(END);
        Ok(())
    }

    /// Keeps a gate of other literals than those of each kept one, and returns the literal of its
    /// entry, which is the next one.
    pub fn add(&mut self, gate: Gate) -> Result<Lit, NoMemory>
        requires new { lookup (same_fan_ins gate) (pairs self.old) ≡ None }
        requires few { next_variable self.old < 2 ^ 28 }
        ensures literal { IfOk result (λ lit. lit ≡ 2 * next_variable self.old) }
        ensures pairs { OnOk result (pairs self.new ≡
            pairs self.old ++ (gate, 2 * next_variable self.old) ∷ []) }
        ensures entered { OnOk result (IsEntered self.old self.new gate) }
    {
        let own = Lit::new(self.next_variable(), false);
        match self.room_of(gate.rhs0.var()) {
            Some(place) => self.add_to_list(place, gate)?,
            None => self.add_to_rest(&gate)?,
        }
        Ok(own)
    }

    /// Gives a gate the next entry, and doesn't keep it.
    pub(crate) fn pass_over(&mut self, gate: Gate) -> Result<(), NoMemory>
        requires { next_variable self.old < 2 ^ 28 }
        ensures pairs { OnOk result (pairs self.new ≡ pairs self.old) }
        ensures entered { OnOk result (IsEntered self.old self.new gate) }
    {
        put(&mut self.gates, self.before.len(), gate)?;
        self.before.push(0)?;
        Ok(())
    }
}
