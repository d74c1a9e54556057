//! Questions whether latches are told one thing, to a circuit in which they read so.
use crate::budget::{Budget, OF_SHARING, OF_VISIT};
use aig_graph::{Aig, Lit, NoMemory};
use gate_sharing::SharingError;
use reading_splits::{Leaving, merged, sides};
use std::alloc::Global;
use unit_refutations::{Propagation, equal_by_probing};

/// How many visits of gates a question takes, and all questions of a round with probing.
const VISITS: u32 = 8_000;

const PROBING: u32 = 200_000;

/// The circuit in which latches read so, and what questions about it need.
pub(crate) struct Questions {
    graph: Aig,
    propagation: Propagation,
}

impl Drop for Questions {
    // written out: docs/PROOFS.md, Drops and exits
    fn drop(self) {
        let Questions {
            graph: _graph,
            propagation: _propagation,
        } = self;
    }
}

/// Takes the visits of questions that were allowed `allowed` visits.
fn pay(budget: &mut Budget, propagation: &Propagation, allowed: u32) {
    let visits = allowed.saturating_sub(propagation.left());
    budget.spend(visits as usize, OF_VISIT);
}

impl Questions {
    /// Returns the questions about a reading. There are none if a latch has no literal from before
    /// the gates.
    pub(crate) fn of(
        alloc: Global,
        aig: &Aig,
        reads: &[Lit],
        budget: &mut Budget,
    ) -> Result<Option<Questions>, SharingError> {
        budget.spend(aig.gates().len(), OF_SHARING);
        let Some(graph) = merged(alloc, aig, reads)? else {
            return Ok(None);
        };
        let propagation = Propagation::of(alloc, &graph)?;
        Ok(Some(Questions { graph, propagation }))
    }

    /// Returns the latch at a place as one that leaves its class.
    pub(crate) fn leaving(&self, place: usize, lit: Lit) -> Leaving {
        let (told, _first) = sides(&self.graph, place, lit);
        (lit.var(), u64::from(told.code()), place)
    }

    /// Returns true if propagation shows that the latch at a place is told what that is told which
    /// it reads as.
    pub(crate) fn is_shown(
        &mut self,
        place: usize,
        lit: Lit,
        budget: &mut Budget,
    ) -> Result<bool, NoMemory> {
        let (told, first) = sides(&self.graph, place, lit);
        self.propagation.allow(VISITS);
        let shown = self.propagation.equal(&self.graph, told, first)?;
        pay(budget, &self.propagation, VISITS);
        Ok(shown)
    }

    /// Returns the literals of inputs and latches that the last question found.
    pub(crate) fn known(&self, alloc: Global) -> Result<Vec<Lit>, NoMemory> {
        let first = self.graph.first_gate();
        let mut known = Vec::new(alloc);
        for lit in self.propagation.trail() {
            if lit.var() > 0 && lit.var() < first {
                known.push(*lit)?;
            }
        }
        Ok(known)
    }

    /// Returns true if propagation shows it with probing.
    fn is_probed(&mut self, alloc: Global, place: usize, lit: Lit) -> Result<bool, NoMemory> {
        let (told, first) = sides(&self.graph, place, lit);
        equal_by_probing(alloc, &mut self.propagation, &self.graph, told, first)
    }

    /// Returns those of these latches of which the question stays open with probing. They stand
    /// class by class, and those of a class that are told alike get one answer.
    pub(crate) fn still_open(
        &mut self,
        alloc: Global,
        reads: &[Lit],
        open: &[Leaving],
        budget: &mut Budget,
    ) -> Result<Vec<Leaving>, NoMemory> {
        let mut leaving = Vec::new(alloc);
        let mut class = (0, 0);
        let mut shown = false;
        self.propagation.allow(PROBING);
        for (at, (var, told, place)) in open.iter().enumerate() {
            if at == 0 || class != (*var, *told) {
                class = (*var, *told);
                let lit = reads.get(*place).copied().unwrap_or(Lit::FALSE);
                shown = self.is_probed(alloc, *place, lit)?;
            }
            if !shown {
                leaving.push((*var, *told, *place))?;
            }
        }
        pay(budget, &self.propagation, PROBING);
        Ok(leaving)
    }
}
