//! Words of random bits, from a fixed seed.
use crate::words::Words;

/// How often a bit is 1.
#[derive(Clone, Copy)]
pub(crate) enum Density {
    Half,
    SevenEighths,
    OneEighth,
    NearlyAll,
    NearlyNone,
    /// One of the first three, word by word.
    Mixed,
}

/// Numbers by shifts and exclusive ors.
#[derive(Drop)]
pub(crate) struct Random {
    state: u64,
}

/// Returns a word, of which an eighth of the bits is 1. Lanes of one word depend on one another,
/// and what two words have in one lane doesn't.
fn one_eighth(word: u64) -> u64 {
    word & word.rotate_left(21) & word.rotate_left(42)
}

fn nearly_none(word: u64) -> u64 {
    let eighth = one_eighth(word);
    eighth & eighth.rotate_left(11)
}

fn mixed(word: u64) -> u64 {
    match word >> 62 {
        0 => one_eighth(word.rotate_left(7)),
        1 => !one_eighth(word.rotate_left(7)),
        _ => word,
    }
}

impl Random {
    /// Returns the numbers of the one seed.
    pub(crate) fn seeded() -> Random {
        Random { state: 4711 }
    }

    /// Returns the next word, of which each bit is 1 half of the time.
    fn next(&mut self) -> u64 {
        let mut word = self.state;
        word ^= word << 13;
        word ^= word >> 7;
        word ^= word << 17;
        self.state = word;
        word
    }

    /// Returns the next word, of which each bit is 1 as often as `density` says.
    pub(crate) fn word(&mut self, density: Density) -> u64 {
        let word = self.next();
        match density {
            Density::Half => word,
            Density::SevenEighths => !one_eighth(word),
            Density::OneEighth => one_eighth(word),
            Density::NearlyAll => !nearly_none(word),
            Density::NearlyNone => nearly_none(word),
            Density::Mixed => mixed(word),
        }
    }

    /// Returns the next words, each with its density.
    pub(crate) fn words(&mut self, densities: &[Density; 4]) -> Words {
        Words {
            a: self.word(densities[0]),
            b: self.word(densities[1]),
            c: self.word(densities[2]),
            d: self.word(densities[3]),
        }
    }
}
