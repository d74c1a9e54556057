//! Lines of numbers, a function for each section. The section of a line follows from what has come
//! (`sections`), and never from the line. So each function knows the count of numbers to expect.
use crate::sections::Sections;
use crate::sections::numbers::{latch_numbers, literal, literal_within, only_number, reset_in};
use aig_graph::Latch;
use ascii_file::Section;
use file_words::ReadError;

/// The greatest sum of the sizes of justice properties.
const MAX_SIZES: u32 = 1 << 24;

impl Sections {
    ghost use Rattle.std.specs.Prelude.{ℕ, List, ◌≡◌, ◌+◌, ◌*◌, false, None, Some, MatchOption};
    ghost use Rattle.ascii_file.specs.declared.header.Header.{Header};
    ghost use Rattle.ascii_file.specs.declared.raw.Section.TheVariants as section;
    ghost use Rattle.ascii_file.specs.Raw.{Raw};
    ghost use Rattle.ascii_file.specs.Reading.{is_symbols};
    ghost use Rattle.file_words.specs.declared.fault.ReadError.TheVariants.{NoMemory};
    ghost use Rattle.file_words.specs.Answering.{Gives};
    ghost use Rattle.ascii_file.specs.parts.Rows.{row_of};
    ghost use Rattle.binary_file.specs.Items.{next_section};
    ghost use Rattle.binary_file.specs.Reading.{read_line};
    ghost use Rattle.binary_file.specs.Contents.{IsAt, section_to_fill, latch_literal};
    ghost use Rattle.binary_file.specs.ReaderItems.{latch_taken, safety_taken, size_taken, liveness_taken};
    ghost use Rattle.binary_file.specs.Taking.{Takes};

    /// Takes the line of the next item, which begins at offset `at`, by its numbers. They are
    /// `None` unless the line is at most nine numbers with one space between. `u32::MAX` stands for
    /// each greater number too. The section isn't that of symbols; gates have no lines.
    ///
    /// # Errors
    ///
    /// `BadLine` if there aren't as many numbers as the section wants. `MaxIndex` at a literal past
    /// the greatest variable. `BadReset` at a reset that is neither 0 nor 1 nor the latch's own
    /// literal. `TooLarge` if the sizes of justice properties sum to more than 2^24. `NoMemory`.
    /// The sections are then of no more use.
    pub fn take_numbers(&mut self, at: u64, numbers: Option<&[u32]>) -> Result<(), ReadError>
        ensures { (h : Header) (raw : Raw) (line : List ℕ) → IsAt self.old h raw
            → is_symbols (next_section h raw) ≡ false
            → MatchOption numbers.entry (row_of line ≡ None) (λ ns. row_of line ≡ Some ns.now)
            → Takes h self.new result (read_line h raw at line) }
    {
        let _ = &self.header;
        let Some(numbers) = numbers else {
            return Err(ReadError::BadLine(at));
        };
        match self.section() {
            Section::Latches => self.take_latch(at, numbers),
            Section::Safety => self.take_safety(at, numbers),
            Section::Sizes => self.take_size(at, numbers),
            Section::Liveness => self.take_liveness(at, numbers),
            _ => Err(ReadError::BadLine(at)),
        }
    }

    fn take_latch(&mut self, at: u64, numbers: &[u32]) -> Result<(), ReadError>
        requires { section_to_fill self.old ≡ section.Latches }
        ensures { Gives NoMemory (λ _. self.new) result (latch_taken self.old at numbers.now) }
    {
        let (next, reset) = latch_numbers(at, numbers)?;
        let next = literal_within(&self.header, at, next)?;
        let Some(reset) = reset_in(self.latch_literal(), reset) else {
            return Err(ReadError::BadReset(at));
        };
        self.latches.push(Latch {
            next: literal(next),
            reset,
        })?;
        Ok(())
    }

    fn latch_literal(&self) -> u32
        ensures { result ≡ latch_literal self.now }
    {
        2 * (self.header.inputs + 1 + self.latches.len() as u32)
    }

    fn take_safety(&mut self, at: u64, numbers: &[u32]) -> Result<(), ReadError>
        requires { section_to_fill self.old ≡ section.Safety }
        ensures { Gives NoMemory (λ _. self.new) result (safety_taken self.old at numbers.now) }
    {
        let number = only_number(at, numbers)?;
        let lit = literal_within(&self.header, at, number)?;
        self.properties.push_safety(lit)?;
        Ok(())
    }

    fn take_size(&mut self, at: u64, numbers: &[u32]) -> Result<(), ReadError>
        requires { section_to_fill self.old ≡ section.Sizes }
        ensures { Gives NoMemory (λ _. self.new) result (size_taken self.old at numbers.now) }
    {
        let size = only_number(at, numbers)?;
        if size > MAX_SIZES - self.properties.size_sum() {
            return Err(ReadError::TooLarge(at));
        }
        self.properties.push_size(size)?;
        Ok(())
    }

    fn take_liveness(&mut self, at: u64, numbers: &[u32]) -> Result<(), ReadError>
        requires { section_to_fill self.old ≡ section.Liveness }
        ensures { Gives NoMemory (λ _. self.new) result (liveness_taken self.old at numbers.now) }
    {
        let number = only_number(at, numbers)?;
        let lit = literal_within(&self.header, at, number)?;
        self.properties.push_liveness(lit)?;
        Ok(())
    }
}
