//! Closed sets of passable gates. A set is judged by one look at each member. If the fan-ins of
//! every member are latches that may move or members, all members are passable, by induction along
//! the order of the gates.
ghost use Rattle.std.specs.Prelude.{◌≡◌, ◌+◌, ◌<◌, ◌↔◌, ◌⊎◌, IsTrue, All, Contains, MatchOption, length};
ghost use Rattle.std.specs.Option.{SomeIff};
ghost use Rattle.std.specs.List.Sorted.{IsStrictlyIncreasing};
ghost use Rattle.aig_graph.specs.Marking.{has};
ghost use Rattle.aig_graph.specs.Closed.{IsClosedSet, MayMoveOrIn, RestsOn};
ghost use Rattle.aig_graph.specs.Graph.{gate_at};

use crate::graph::Aig;
use crate::keep::Keep;
use crate::rising::{contains, is_rising};
use std::marker::Model;

/// A set of variables, as a strictly rising list. It need not be closed; [`is_closed`] tells.
pub struct ClosedSet {
    vars: Vec<u32>,
}

impl Drop for ClosedSet {
    // written out: docs/PROOFS.md, Drops and exits
    fn drop(self) {
        let ClosedSet { vars: _vars } = self;
    }
}

impl Model for ClosedSet {
    ghost use Rattle.std.specs.Prelude.{List, ℕ};
    ghost use Rattle.std.specs.List.Sorted.{IsStrictlyIncreasing};

    ghost Value = { List ℕ };

    ghost view = { λ s. s.vars.items };

    ghost invariant = { λ s. IsStrictlyIncreasing s.vars.items };
}

impl ClosedSet {
    /// Returns the set of `vars`, if they rise strictly; another list is dropped. The empty list
    /// rises.
    pub fn new(vars: Vec<u32>) -> Option<ClosedSet>
        ensures { SomeIff result (IsStrictlyIncreasing vars.items) vars.items }
    {
        if is_rising(vars.as_slice()) {
            Some(ClosedSet { vars })
        } else {
            None
        }
    }

    /// Returns the variables, rising.
    pub fn vars(&self) -> &[u32]
        ensures value { result.now ≡ self.now }
        ensures rising { IsStrictlyIncreasing result.now }
    {
        self.vars.as_slice()
    }

    /// Returns true if the variable is in the set, by a binary search.
    pub fn has(&self, var: u32) -> bool
        ensures value { result ≡ has self.now var }
        ensures contains { IsTrue result ↔ Contains self.now var }
    {
        contains(self.vars(), var)
    }
}

/// Returns true if the set is a closed set of passable gates. Each member then is a gate, and each
/// variable of its fan-ins is a member, or a latch with a known reset that isn't held. Takes no
/// memory; a member costs a few binary searches.
pub fn is_closed(aig: &Aig, set: &ClosedSet, keep: &Keep) -> bool
    ensures { IsTrue result ↔ IsClosedSet aig.now keep.now set.now }
{
    // A graph's readers ensure that fan-ins come before their gates.
    aig.known();
    each_rests_on(aig, set, keep)
}

fn each_rests_on(aig: &Aig, set: &ClosedSet, keep: &Keep) -> bool
    ensures value { IsTrue result ↔ All (RestsOn aig.now keep.now set.now) set.now }
    ensures rising { IsStrictlyIncreasing set.now }
{
    set.vars().iter().all(|var| rests_on(aig, set, keep, *var))
}

/// Returns true if the variable is a gate whose fan-ins are latches that may move, or in the set.
#[tactic(auto, unfolding(crate::specs::Closed::RestsOn))]
fn rests_on(aig: &Aig, set: &ClosedSet, keep: &Keep, var: u32) -> bool
    ensures { IsTrue result ↔ RestsOn aig.now keep.now set.now var }
{
    match aig.gate(var) {
        Some(gate) => {
            may_move_or_in(aig, set, keep, gate.rhs0.var())
                && may_move_or_in(aig, set, keep, gate.rhs1.var())
        }
        None => false,
    }
}

/// Returns true if the variable is a latch that may move, or in the set.
fn may_move_or_in(aig: &Aig, set: &ClosedSet, keep: &Keep, var: u32) -> bool
    ensures { IsTrue result ↔ MayMoveOrIn aig.now keep.now set.now var }
{
    keep.may_move(aig, var) || set.has(var)
}
