//! Rounds over the whole circuit part each class by what its latches are told. If each round parts
//! fewer latches, they end after a few. Otherwise each may part one latch, as in a delay line or a
//! counter, and names part the rest by what changes.
use crate::merging::{merged, sides};
use crate::parting::{Leaving, own_literal, part, reads_another};
use crate::splitting::split;
use aig_graph::{Aig, Lit, NoMemory};
use gate_sharing::SharingError;
use std::alloc::Global;

/// The most rounds before names.
const MOST_ROUNDS: u32 = 64;

/// The most of them that may part more than three quarters of what the round before parted.
const MOST_SLOW: u32 = 2;

/// The pace at which rounds part latches, which tells if they end soon.
#[derive(Drop)]
struct Pace {
    /// The number of latches that the last round parted.
    parted: usize,
    /// The number of rounds that parted more than three quarters of what the round before parted.
    slow: u32,
}

impl Pace {
    /// Returns true if rounds go on after one that parted `parted` latches.
    fn goes_on(&mut self, parted: usize) -> bool {
        if parted.saturating_mul(4) > self.parted.saturating_mul(3) {
            self.slow = self.slow.saturating_add(1);
        }
        self.parted = parted;
        self.slow <= MOST_SLOW
    }
}

/// Returns the latches that aren't told what their first is, class by class.
fn leaving(alloc: Global, graph: &Aig, reads: &[Lit]) -> Result<Vec<Leaving>, NoMemory> {
    let mut leaving = Vec::new(alloc);
    for (place, lit) in reads.iter().enumerate() {
        if reads_another(graph, place, *lit) {
            let (told, first) = sides(graph, place, *lit);
            if told != first {
                leaving.push((lit.var(), u64::from(told.code()), place))?;
            }
        }
    }
    leaving.sort()?;
    Ok(leaving)
}

/// Parts classes by what their latches are told. Returns how many latches left theirs.
fn round(alloc: Global, aig: &Aig, reads: &mut Vec<Lit>) -> Result<usize, SharingError> {
    let Some(graph) = merged(alloc, aig, reads.as_slice())? else {
        return Ok(0);
    };
    let leaving = leaving(alloc, &graph, reads.as_slice())?;
    part(aig, reads, leaving.as_slice());
    Ok(leaving.len())
}

/// Returns the reading in which each latch reads as itself.
fn own_reading(alloc: Global, aig: &Aig) -> Result<Vec<Lit>, NoMemory> {
    let mut reads = Vec::new(alloc);
    for place in 0..aig.latches().len() {
        reads.push(own_literal(aig, place))?;
    }
    Ok(reads)
}

/// Parts classes by names. If names run out, each latch reads as itself.
fn split_or_own(alloc: Global, aig: &Aig, reads: &[Lit]) -> Result<Vec<Lit>, NoMemory> {
    match split(alloc, aig, reads)? {
        Some(finer) => Ok(finer),
        None => own_reading(alloc, aig),
    }
}

/// Parts the classes of a reading until the latches of each are told one literal, negated as they
/// read. The classes are then the largest of that kind within those of `reads`.
///
/// A round is linear. If rounds don't end soon, classes are parted by what changed since they were
/// looked at. The cost is then that of the latches and gates that read a parted variable, each time
/// it is parted.
///
/// # Errors
///
/// `NoMemory` if memory is refused, and `TooLarge` if there are too many gates.
pub fn hashed(alloc: Global, aig: &Aig, reads: Vec<Lit>) -> Result<Vec<Lit>, SharingError> {
    let mut reads = reads;
    let mut pace = Pace {
        parted: aig.latches().len(),
        slow: 0,
    };
    for _ in 0..MOST_ROUNDS {
        let parted = round(alloc, aig, &mut reads)?;
        if parted == 0 {
            return Ok(reads);
        }
        if !pace.goes_on(parted) {
            break;
        }
    }
    Ok(split_or_own(alloc, aig, reads.as_slice())?)
}
