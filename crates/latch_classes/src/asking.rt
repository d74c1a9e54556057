//! Asks of each latch whether it is told what its class's first is, gate by gate. A question that
//! stays open leaves literals that are 1 if they differ, and steps from such states part classes.
use crate::questions::Questions;
use crate::steps::Steps;
use aig_graph::{Aig, Lit, NoMemory};
use reading_splits::{Leaving, part, reads_another};
use std::alloc::Global;

/// How many steps near the states of a question there are at most.
const MOST_STEPS: usize = 1024;

/// How many questions of a round may end in steps that part no class, one after another.
const IDLE: usize = 16;

/// What was asked of the latches.
struct Asked {
    /// The latches of which the question is open, and what they are told.
    open: Vec<Leaving>,
    /// Whether a class was parted.
    parted: bool,
    /// How many questions parted none since one did.
    idle: usize,
}

impl Drop for Asked {
    // written out: docs/PROOFS.md, Drops and exits
    fn drop(self) {
        let Asked {
            open: _open,
            parted: _parted,
            idle: _idle,
        } = self;
    }
}

/// Parts classes by steps near the states in which these literals are 1, until one parts none.
/// Whether one parted some.
fn chase(
    alloc: Global,
    aig: &Aig,
    steps: &mut Steps,
    reads: &mut Vec<Lit>,
    known: &[Lit],
) -> Result<bool, NoMemory> {
    let mut parted = false;
    for _ in 0..MOST_STEPS {
        steps.step_near(aig, reads.as_slice(), known);
        if !steps.part(alloc, aig, reads)? {
            return Ok(parted);
        }
        parted = true;
        steps.narrow(alloc, aig, reads.as_slice())?;
    }
    Ok(parted)
}

impl Asked {
    /// Takes an open question, and looks for a state that parts its class.
    fn take(
        &mut self,
        alloc: Global,
        aig: &Aig,
        questions: &Questions,
        steps: &mut Steps,
        reads: &mut Vec<Lit>,
        leaving: Leaving,
    ) -> Result<(), NoMemory> {
        self.open.push(leaving)?;
        if self.idle < IDLE {
            let known = questions.known(alloc)?;
            self.idle += 1;
            if chase(alloc, aig, steps, reads, known.as_slice())? {
                self.parted = true;
                self.idle = 0;
            }
        }
        Ok(())
    }
}

/// Asks of each latch that reads as it did before, while the budget lasts.
fn ask(
    alloc: Global,
    aig: &Aig,
    questions: &mut Questions,
    steps: &mut Steps,
    reads: &mut Vec<Lit>,
) -> Result<Asked, NoMemory> {
    let mut before = Vec::new(alloc);
    before.extend_from_slice(reads.as_slice())?;
    let mut asked = Asked {
        open: Vec::new(alloc),
        parted: false,
        idle: 0,
    };
    for (place, lit) in before.as_slice().iter().enumerate() {
        let stays = place < reads.len() && reads[place] == *lit;
        if stays && reads_another(aig, place, *lit) && !steps.budget.is_spent() {
            if !questions.is_shown(place, *lit, &mut steps.budget)? {
                let leaving = questions.leaving(place, *lit);
                asked.take(alloc, aig, questions, steps, reads, leaving)?;
            }
        }
    }
    Ok(asked)
}

/// Asks of all latches, and parts the classes of those of which it stays open. Whether one was
/// parted. If the budget is spent, nothing is said of them.
pub(crate) fn round(
    alloc: Global,
    aig: &Aig,
    questions: &mut Questions,
    steps: &mut Steps,
    reads: &mut Vec<Lit>,
) -> Result<bool, NoMemory> {
    let mut asked = ask(alloc, aig, questions, steps, reads)?;
    if asked.parted || steps.budget.is_spent() {
        return Ok(asked.parted);
    }
    asked.open.sort()?;
    let open = asked.open.as_slice();
    let leaving = questions.still_open(alloc, reads.as_slice(), open, &mut steps.budget)?;
    if steps.budget.is_spent() {
        return Ok(false);
    }
    part(aig, reads, leaving.as_slice());
    Ok(!leaving.is_empty())
}
