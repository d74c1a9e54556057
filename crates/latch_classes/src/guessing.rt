//! The rounds of a guess.
use crate::asking::round;
use crate::budget::Budget;
use crate::questions::Questions;
use crate::steps::{Steps, cost};
use aig_graph::{Aig, Lit, NoMemory};
use gate_sharing::SharingError;
use std::alloc::Global;

/// How many random steps part no class before they end.
const QUIET: usize = 3;

/// How many random steps there are in a round at most.
const MOST_STEPS: usize = 4096;

/// How many steps over all gates a budget must have. Fewer part too little, and the words of a
/// large circuit take much memory.
const FEWEST_STEPS: u64 = 16;

/// What latches are taken for.
#[derive(Drop)]
pub struct GuessedReads {
    /// By latch what it reads as.
    pub reads: Vec<Lit>,
    /// Whether propagation shows that latches go on to hold what they read as. If not, the budget
    /// was spent, and classes have to be parted further.
    pub is_settled: bool,
}

/// Parts classes by steps from random states in which latches hold what they read as.
fn simulate(
    alloc: Global,
    aig: &Aig,
    steps: &mut Steps,
    reads: &mut Vec<Lit>,
) -> Result<(), NoMemory> {
    let mut quiet = 0;
    for _ in 0..MOST_STEPS {
        if quiet >= QUIET || steps.budget.is_spent() {
            return Ok(());
        }
        steps.narrow(alloc, aig, reads.as_slice())?;
        steps.random_step(aig, reads.as_slice());
        quiet += 1;
        if steps.part(alloc, aig, reads)? {
            quiet = 0;
        }
    }
    Ok(())
}

/// Simulates, and then asks of all latches. Returns true if what was asked parted a class.
fn turn(
    alloc: Global,
    aig: &Aig,
    steps: &mut Steps,
    reads: &mut Vec<Lit>,
) -> Result<bool, SharingError> {
    simulate(alloc, aig, steps, reads)?;
    if steps.budget.is_spent() {
        return Ok(false);
    }
    let found = Questions::of(alloc, aig, reads.as_slice(), &mut steps.budget)?;
    match found {
        Some(questions) => {
            let mut questions = questions;
            let parted = round(alloc, aig, &mut questions, steps, reads)?;
            Ok(parted)
        }
        None => Ok(false),
    }
}

/// Takes turns until none parts a class. Whether that was before the budget was spent.
fn settle(
    alloc: Global,
    aig: &Aig,
    budget: Budget,
    reads: &mut Vec<Lit>,
) -> Result<bool, SharingError> {
    let mut steps = Steps::of(alloc, aig, reads.as_slice(), budget)?;
    for _ in 0..=aig.latches().len() {
        if !turn(alloc, aig, &mut steps, reads)? {
            return Ok(!steps.budget.is_spent());
        }
    }
    Ok(false)
}

/// Guesses what each latch of a circuit may be taken for: itself, a constant, or an earlier latch
/// that reads as itself, with a sign. `reads` says what each reads as at first, and classes are
/// parted alone. So a latch that reads as itself at first does so in the end, and may be that of a
/// class. A reading in which latches of known reset read as their resets begins with one class of
/// all.
///
/// # Errors
///
/// `NoMemory` where memory is refused, and `TooLarge` where there are too many gates.
pub fn guess(
    alloc: Global,
    aig: &Aig,
    reads: Vec<Lit>,
    budget: Budget,
) -> Result<GuessedReads, SharingError> {
    let mut reads = reads;
    if budget.total() / FEWEST_STEPS < cost(aig) {
        return Ok(GuessedReads {
            reads,
            is_settled: false,
        });
    }
    let is_settled = settle(alloc, aig, budget, &mut reads)?;
    Ok(GuessedReads { reads, is_settled })
}
