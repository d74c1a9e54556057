//! Marks by place, from which the first is taken again and again. All lie in the words of 64 places
//! from `low` to before `high`, so taking one costs a look at each word before it.
use aig_graph::NoMemory;
use std::alloc::Global;

/// A mark for each place, in words.
#[derive(Drop)]
pub(crate) struct Marks {
    words: Vec<u64>,
    low: usize,
    high: usize,
}

impl Marks {
    /// Returns places without a mark.
    pub(crate) fn none(alloc: Global, places: usize) -> Result<Marks, NoMemory> {
        let words = vec![in alloc; 0u64; places / 64 + 1]?;
        Ok(Marks {
            words,
            low: 0,
            high: 0,
        })
    }

    /// Returns places with a mark each.
    pub(crate) fn all(alloc: Global, places: usize) -> Result<Marks, NoMemory> {
        let mut marks = Marks::none(alloc, places)?;
        for place in 0..places {
            marks.add(place);
        }
        Ok(marks)
    }

    /// Marks a place, if there is one.
    pub(crate) fn add(&mut self, place: usize) {
        let at = place / 64;
        if at < self.words.len() {
            self.words[at] |= 1u64 << (place % 64);
            if self.low >= self.high {
                self.low = at;
            }
            self.low = self.low.min(at);
            self.high = self.high.max(at + 1);
        }
    }

    /// Returns true if there may be a mark.
    pub(crate) fn any(&self) -> bool {
        self.low < self.high
    }

    /// Takes the first mark out, and returns its place.
    pub(crate) fn take(&mut self) -> Option<usize> {
        for at in self.low..self.high {
            if at < self.words.len() && self.words[at] != 0 {
                let word = self.words[at];
                self.words[at] = word & word.wrapping_sub(1);
                self.low = at;
                return Some(
                    at.saturating_mul(64)
                        .saturating_add(word.trailing_zeros() as usize),
                );
            }
        }
        self.low = 0;
        self.high = 0;
        None
    }
}
