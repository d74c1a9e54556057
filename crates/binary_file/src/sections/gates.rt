//! Gates of a binary file: one by its two deltas as they come, or all that are whole at the front
//! of some bytes.
use crate::delta::{GATE_BYTES, whole_gate};
use crate::sections::Sections;
use crate::sections::numbers::literal;
use aig_graph::Gate;
use file_words::ReadError;

impl Sections {
    ghost use Rattle.std.specs.Prelude.{ℕ, ◌≡◌, ◌<◌, ◌≤◌, ◌^◌, length, Ok, IfOk, IfErr};
    ghost use Rattle.ascii_file.specs.declared.header.Header.{Header};
    ghost use Rattle.ascii_file.specs.declared.raw.Section.TheVariants.{Gates};
    ghost use Rattle.ascii_file.specs.Raw.{Raw};
    ghost use Rattle.file_words.specs.declared.fault.ReadError.TheVariants.{NoMemory};
    ghost use Rattle.file_words.specs.Answering.{Gives};
    ghost use Rattle.binary_file.specs.Items.{next_section, next_gate};
    ghost use Rattle.binary_file.specs.Contents.{IsAt, section_to_fill, gate_literal};
    ghost use Rattle.binary_file.specs.ReaderItems.{contents_with_gate};
    ghost use Rattle.binary_file.specs.Taking.{Takes, TakesGates, read_first_delta, read_second_delta};

    /// Returns the first fan-in of the next gate, by its delta, which begins at offset `at`.
    ///
    /// # Errors
    ///
    /// `BadDelta` if the delta is 0 or above the gate's literal.
    pub fn first_fan_in(&self, at: u64, delta: u64) -> Result<u32, ReadError>
        ensures { (h : Header) (raw : Raw) → IsAt self.now h raw
            → result ≡ read_first_delta h raw at delta }
    {
        let gate = self.gate_literal();
        if delta == 0 || delta > u64::from(gate) {
            return Err(ReadError::BadDelta(at));
        }
        Ok(gate - delta as u32)
    }

    /// Takes the next gate, by its first fan-in and its second delta, which begins at offset `at`.
    ///
    /// # Errors
    ///
    /// `BadDelta` if the delta is above the first fan-in; `NoMemory`. The sections are then of no
    /// more use.
    pub fn take_gate(&mut self, at: u64, rhs0: u32, delta: u64) -> Result<(), ReadError>
        ensures { (h : Header) (raw : Raw) → IsAt self.old h raw → next_section h raw ≡ Gates
            → rhs0 < next_gate h raw
            → Takes h self.new result (read_second_delta h raw at rhs0 delta) }
    {
        if delta > u64::from(rhs0) {
            return Err(ReadError::BadDelta(at));
        }
        self.push_gate(at, rhs0, rhs0 - delta as u32)
    }

    /// Takes whole gates, up to one with a fault, while a gate is missing and as many bytes are
    /// left as the longest gate has. Returns what is left of the bytes.
    ///
    /// # Errors
    ///
    /// `NoMemory`. The sections are then of no more use.
    pub(crate) fn take_gates<'a>(&mut self, bytes: &'a [u8]) -> Result<&'a [u8], ReadError>
        ensures taken { (h : Header) (raw : Raw) (at : ℕ) → IsAt self.old h raw
            → next_section h raw ≡ Gates → TakesGates h raw at self.new bytes.now result }
        ensures fewer { IfOk result (λ left. length left.now ≤ length bytes.now) }
    {
        let mut left = bytes;
        while left.len() >= GATE_BYTES && self.gates.len() < self.header.gates as usize {
            let Some(gate) = whole_gate(self.gate_literal(), left) else {
                break;
            };
            self.add_gate(gate.rhs0, gate.rhs1)?;
            left = &left[gate.len..];
        }
        Ok(left)
    }

    /// Adds a gate if one is missing and these are fan-ins below its own literal.
    fn push_gate(&mut self, at: u64, rhs0: u32, rhs1: u32) -> Result<(), ReadError>
        requires { rhs1 ≤ rhs0 }
        ensures { section_to_fill self.old ≡ Gates → rhs0 < gate_literal self.old
            → Gives NoMemory (λ _. self.new) result
            (Ok (contents_with_gate self.old (record { rhs0 = rhs0; rhs1 = rhs1 }))) }
    {
        let is_missing = self.gates.len() < self.header.gates as usize;
        if !is_missing || rhs0 >= self.gate_literal() {
            return Err(ReadError::BadDelta(at));
        }
        self.add_gate(rhs0, rhs1)
    }

    /// Adds a gate, which is missing, of fan-ins below its own literal.
    fn add_gate(&mut self, rhs0: u32, rhs1: u32) -> Result<(), ReadError>
        requires missing { length self.old.gates < self.old.header.gates }
        requires ordered { rhs1 ≤ rhs0 }
        requires below { rhs0 < gate_literal self.old }
        ensures gate { Gives NoMemory (λ _. self.new) result
            (Ok (contents_with_gate self.old (record { rhs0 = rhs0; rhs1 = rhs1 }))) }
        ensures error { IfErr result (λ error. error ≡ NoMemory) }
    {
        self.gates.push(Gate {
            rhs0: literal(rhs0),
            rhs1: literal(rhs1),
        })?;
        Ok(())
    }

    /// Returns the literal of the next gate.
    fn gate_literal(&self) -> u32
        ensures value { result ≡ gate_literal self.now }
        ensures small { result < 2 ^ 30 }
    {
        2 * (self.header.inputs + self.header.latches + 1 + self.gates.len() as u32)
    }
}
