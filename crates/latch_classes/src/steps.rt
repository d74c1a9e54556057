//! Steps from random states in which latches hold what they read as, in 256 lanes at once, and what
//! they part.
use crate::budget::{Budget, OF_GATE, OF_LEAF};
use crate::cone::Cone;
use crate::random::{Density, Random};
use crate::words::{Words, ZERO};
use aig_graph::{Aig, Lit, NoMemory};
use checked_tables::put_if_there;
use reading_splits::{Leaving, part, reads_another};
use std::alloc::Global;
use std::mem;

/// The densities of what latches hold, one turn after another.
const OF_LATCHES: [Density; 6] = [
    Density::Half,
    Density::SevenEighths,
    Density::OneEighth,
    Density::NearlyAll,
    Density::NearlyNone,
    Density::Mixed,
];

/// Those of inputs.
const OF_INPUTS: [Density; 3] = [Density::Half, Density::SevenEighths, Density::OneEighth];

/// Those of latches near a state that is looked for.
const OF_OTHERS: [Density; 4] = [
    Density::Half,
    Density::NearlyAll,
    Density::NearlyNone,
    Density::Half,
];

/// Those of inputs there.
const HALF: [Density; 4] = [Density::Half, Density::Half, Density::Half, Density::Half];

/// By variable its words in a step: inputs, latches, and after them the gates of the cone.
pub(crate) struct Steps {
    words: Vec<Words>,
    cone: Cone,
    random: Random,
    turn: usize,
    pub(crate) budget: Budget,
}

impl Drop for Steps {
    // written out: docs/PROOFS.md, Drops and exits
    fn drop(self) {
        let Steps {
            words: _words,
            cone: _cone,
            random: _random,
            turn: _turn,
            budget: _budget,
        } = self;
    }
}

/// Returns the words of a literal.
fn words_of(words: &[Words], lit: Lit) -> Words {
    let var = lit.var() as usize;
    if var < words.len() {
        words[var].turned(lit.is_negated())
    } else {
        ZERO
    }
}

/// Puts the words at a place, if there is one.
fn set_words(words: &mut [Words], place: usize, value: Words) {
    put_if_there(words, place, value);
}

/// Returns words in which a literal is 1. In two of them an eighth of some lanes is turned round:
/// other words of a memory, other states of a machine.
fn near(random: &mut Random, lit: Lit) -> Words {
    let words = Words {
        a: u64::MAX,
        b: u64::MAX,
        c: !(random.word(Density::OneEighth) & !0xff),
        d: !(random.word(Density::OneEighth) & !0xff),
    };
    words.turned(lit.is_negated())
}

/// Returns the units of a step over a whole circuit.
pub(crate) fn cost(aig: &Aig) -> u64 {
    let leaves = (aig.first_gate() as u64).saturating_mul(OF_LEAF);
    (aig.gates().len() as u64)
        .saturating_mul(OF_GATE)
        .saturating_add(leaves)
}

impl Steps {
    /// Returns the steps of a circuit whose latches read as `reads` at first.
    pub(crate) fn of(
        alloc: Global,
        aig: &Aig,
        reads: &[Lit],
        budget: Budget,
    ) -> Result<Steps, NoMemory> {
        Ok(Steps {
            words: vec![in alloc; ZERO; aig.variables()]?,
            cone: Cone::of(alloc, aig, reads)?,
            random: Random::seeded(),
            turn: 0,
            budget,
        })
    }

    /// Makes the cone anew if a quarter of its latches has come to read as themselves.
    pub(crate) fn narrow(
        &mut self,
        alloc: Global,
        aig: &Aig,
        reads: &[Lit],
    ) -> Result<(), NoMemory> {
        let still = self.cone.still(aig, reads);
        if still.saturating_mul(4) < self.cone.others.len().saturating_mul(3) {
            self.budget.spend(aig.gates().len(), OF_GATE);
            let cone = Cone::of(alloc, aig, reads)?;
            drop(mem::replace(&mut self.cone, cone));
        }
        Ok(())
    }

    /// Takes what a step costs of the budget.
    fn pay(&mut self) {
        let leaves = self
            .cone
            .inputs
            .len()
            .saturating_add(self.cone.latches.len());
        self.budget.spend(self.cone.gates.len(), OF_GATE);
        self.budget.spend(leaves, OF_LEAF);
    }

    /// Sets random words of inputs, and of latches that read as themselves.
    fn randomize(
        &mut self,
        aig: &Aig,
        reads: &[Lit],
        of_inputs: &[Density; 4],
        of_latches: &[Density; 4],
    ) {
        for var in self.cone.inputs.as_slice() {
            let words = self.random.words(of_inputs);
            set_words(self.words.as_mut_slice(), *var, words);
        }
        let first = aig.first_latch() as usize;
        for place in self.cone.latches.as_slice() {
            if *place < reads.len() && !reads_another(aig, *place, reads[*place]) {
                let words = self.random.words(of_latches);
                set_words(self.words.as_mut_slice(), first.wrapping_add(*place), words);
            }
        }
    }

    /// Takes a step from the latches that read as themselves.
    fn step(&mut self, aig: &Aig, reads: &[Lit]) {
        self.pay();
        let words = self.words.as_mut_slice();
        let first = aig.first_latch() as usize;
        for place in self.cone.latches.as_slice() {
            if *place < reads.len() {
                let value = words_of(words, reads[*place]);
                set_words(words, first.wrapping_add(*place), value);
            }
        }
        let first = aig.first_gate() as usize;
        for (place, gate) in self.cone.gates.as_slice().iter().enumerate() {
            let value = words_of(words, gate.rhs0).both(words_of(words, gate.rhs1));
            set_words(words, first.wrapping_add(place), value);
        }
    }

    /// Returns the densities of the next turn, for inputs and latches.
    fn densities(&mut self) -> (Density, Density) {
        let of_latches = OF_LATCHES[self.turn % 6];
        let of_inputs = OF_INPUTS[self.turn / 6 % 3];
        self.turn = self.turn.wrapping_add(1);
        (of_inputs, of_latches)
    }

    /// Takes a step from random states. The densities change from word to word.
    pub(crate) fn random_step(&mut self, aig: &Aig, reads: &[Lit]) {
        let (a, b) = (self.densities(), self.densities());
        let (c, d) = (self.densities(), self.densities());
        self.randomize(aig, reads, &[a.0, b.0, c.0, d.0], &[a.1, b.1, c.1, d.1]);
        self.step(aig, reads);
    }

    /// Takes a step from states in which these literals are 1.
    pub(crate) fn step_near(&mut self, aig: &Aig, reads: &[Lit], known: &[Lit]) {
        self.randomize(aig, reads, &HALF, &OF_OTHERS);
        for lit in known {
            let words = near(&mut self.random, *lit);
            set_words(self.words.as_mut_slice(), lit.var() as usize, words);
        }
        self.step(aig, reads);
    }

    /// Returns what the latch at a place is told in the last step.
    fn words_told(&self, place: usize) -> Words {
        if place < self.cone.told.len() {
            words_of(self.words.as_slice(), self.cone.told[place])
        } else {
            ZERO
        }
    }

    /// Returns what that is told which a latch reads as; of a constant, what that is.
    fn words_of_first(&self, aig: &Aig, lit: Lit) -> Words {
        if lit.var() < aig.first_latch() {
            return ZERO;
        }
        self.words_told((lit.var() - aig.first_latch()) as usize)
    }

    /// Parts classes by what the latches are told in the last step. Whether one was.
    pub(crate) fn part(
        &mut self,
        alloc: Global,
        aig: &Aig,
        reads: &mut Vec<Lit>,
    ) -> Result<bool, NoMemory> {
        let mut leaving: Vec<Leaving> = Vec::new(alloc);
        for place in self.cone.others.as_slice() {
            if *place < reads.len() && reads_another(aig, *place, reads[*place]) {
                let lit = reads[*place];
                let told = self.words_told(*place).turned(lit.is_negated());
                if !told.is(self.words_of_first(aig, lit)) {
                    leaving.push((lit.var(), told.number(), *place))?;
                }
            }
        }
        leaving.sort()?;
        part(aig, reads, leaving.as_slice());
        self.budget.gain(leaving.len());
        Ok(!leaving.is_empty())
    }
}
