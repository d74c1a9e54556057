//! The lines of a text with their offsets, since a fault of a line is told by the offset of its
//! first byte. Lists, stimuli, certificates and witnesses are read by these. What each makes of a
//! line stands in its own crate.
ghost use Rattle.std.specs.Prelude.{◌≤◌, length};

use crate::cutting::first_line;

/// A line, without its newline.
#[derive(Clone, Copy)]
pub struct Line<'a> {
    /// The offset of its first byte.
    pub at: u64,
    /// Its bytes.
    pub text: &'a [u8],
}

/// The lines of a text that are still to be read.
#[derive(Drop)]
pub struct Lines<'a> {
    rest: &'a [u8],
    /// The length of the whole text.
    end: u64,
    ghost within: { length rest.now ≤ end },
}

impl<'a> Lines<'a> {
    ghost use Rattle.std.specs.Prelude.{◌≡◌, ◌≤◌, ◌-◌, ◌==◌, [], length, MatchOption};
    ghost use Rattle.file_words.specs.Cuts.{IsFirst};

    /// Returns all lines of a text.
    pub fn new(text: &'a [u8]) -> Lines<'a>
        ensures rest { result.rest.now ≡ text.now }
        ensures end { result.end ≡ length text.now }
    {
        Lines {
            rest: text,
            end: text.len() as u64,
        }
    }

    /// Returns the length of the whole text, which is the offset of a missing line.
    pub fn end(&self) -> u64
        ensures { result ≡ self.now.end }
    {
        self.end
    }

    /// Returns true if no line is left.
    pub fn is_at_end(&self) -> bool
        ensures { result ≡ (length self.now.rest.now == 0) }
    {
        self.rest.is_empty()
    }

    /// Takes the next line, if there is one.
    pub fn next_line(&mut self) -> Option<Line<'a>>
        ensures end { self.new.end ≡ self.old.end }
        ensures within { length self.old.rest.now ≤ self.old.end }
        ensures shorter { length self.new.rest.now ≤ length self.old.rest.now }
        ensures line { MatchOption result (self.old.rest.now ≡ [])
            (λ line. (line.at ≡ self.old.end - length self.old.rest.now)
            × IsFirst self.old.rest.now line.text.now self.new.rest.now) }
    {
        if self.rest.is_empty() {
            return None;
        }
        let at = self.end - self.rest.len() as u64;
        let (text, rest) = first_line(self.rest);
        self.rest = rest;
        Some(Line { at, text })
    }
}
