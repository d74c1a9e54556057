//! Literals that are known to be equal: of those that are, one stands for the others, found by a
//! way of literals that leads down. Each search shortens the ways that it goes, so that all
//! searches together take a little more than a step each.
ghost use Rattle.std.specs.Prelude.{ℕ, ◌≡◌, ◌≤◌, Bool, [], OnOk};
ghost use Rattle.aig_graph.specs.Graph.{variable};
ghost use Rattle.aig_graph.specs.Gates.{IsNegated};
ghost use Rattle.gate_sharing.specs.Equal.{IsRight, StaysRight, standing_for};

use aig_graph::{Lit, NoMemory};
use std::alloc::Global;
use std::marker::Model;

/// By variable, from a first one on, a literal that stands for it. A variable past the end stands
/// for itself.
pub struct Equalities {
    first: u32,
    substitutes: Vec<Lit>,
}

impl Drop for Equalities {
    // written out: docs/PROOFS.md, Drops and exits
    fn drop(self) {
        let Equalities {
            first: _first,
            substitutes: _substitutes,
        } = self;
    }
}

impl Model for Equalities {
    ghost use Rattle.gate_sharing.specs.Equal.{Equal};

    ghost Value = { Equal };

    ghost view = { λ e. record { first = e.first; substitutes = e.substitutes.items } };
}

impl Equalities {
    /// Returns equalities in which each literal stands for itself. For one before `first` no other
    /// ever does.
    pub fn none(alloc: Global, first: u32) -> Equalities
        ensures { result ≡ record { first = first; substitutes = [] } }
    {
        Equalities {
            first,
            substitutes: Vec::new(alloc),
        }
    }

    /// Returns the substitute of a literal.
    #[tactic(auto, unfolding(crate::specs::Equal::standing_for))]
    fn standing(&self, lit: Lit) -> Lit
        ensures { result ≡ standing_for self.now lit }
    {
        let var = lit.var();
        if var < self.first {
            return lit;
        }
        match self.substitutes.get((var - self.first) as usize) {
            Some(substitute) => substitute.signed_as(lit),
            None => lit,
        }
    }

    /// Puts another literal for one for which one may stand already.
    fn redirect(&mut self, lit: Lit, to: Lit)
        ensures { (values : ℕ → Bool) → IsNegated values → values to ≡ values lit
            → IsRight self.old values → IsRight self.new values }
    {
        let var = lit.var();
        if var < self.first {
            return;
        }
        let place = (var - self.first) as usize;
        if place < self.substitutes.len() {
            self.substitutes[place] = to.signed_as(lit);
        }
    }

    /// Finds what stands for a literal, and for which none but itself does.
    pub fn find(&mut self, lit: Lit) -> Lit
        ensures below { variable result ≤ variable lit }
        ensures right { StaysRight self.old self.new }
        ensures value { (values : ℕ → Bool) → IsNegated values → IsRight self.old values
            → values result ≡ values lit }
    {
        let mut root = lit;
        let mut next = self.standing(root);
        while next.var() < root.var() {
            let after = self.standing(next);
            self.redirect(root, after);
            root = next;
            next = after;
        }
        root
    }

    /// Lets each variable up to a literal's stand for itself, for which none does yet.
    fn cover(&mut self, lit: Lit) -> Result<(), NoMemory>
        ensures { OnOk result (StaysRight self.old self.new) }
    {
        let var = lit.var();
        if var < self.first {
            return Ok(());
        }
        let end = (var - self.first) as usize + 1;
        for place in self.substitutes.len()..end {
            self.substitutes
                .push(Lit::new(self.first + place as u32, false))?;
        }
        Ok(())
    }

    /// Takes a literal for a larger one of equal value.
    fn join(&mut self, small: Lit, large: Lit) -> Result<bool, NoMemory>
        ensures { OnOk result ((values : ℕ → Bool) → IsNegated values → values small ≡ values large
            → IsRight self.old values → IsRight self.new values) }
    {
        self.cover(large)?;
        self.redirect(large, small);
        Ok(true)
    }

    /// Takes one of two literals for the other, which have one value. Whether it wasn't taken for
    /// it before.
    pub fn assume(&mut self, a: Lit, b: Lit) -> Result<bool, NoMemory>
        ensures { OnOk result ((values : ℕ → Bool) → IsNegated values → values a ≡ values b
            → IsRight self.old values → IsRight self.new values) }
    {
        let a = self.find(a);
        let b = self.find(b);
        if a.var() == b.var() {
            return Ok(false);
        }
        if a < b {
            self.join(a, b)
        } else {
            self.join(b, a)
        }
    }
}
