ghost use Rattle.std.specs.Prelude.{ℕ, List, ◌≡◌, ◌++◌, IfOk, OnOk, IfErr, Ok};
ghost use Rattle.aig_binary.specs.Spellings.{read_any, spelling_of};
ghost use Rattle.aig_binary.specs.Pieces.{IsFeedError, IsFinishError};

use aig_graph::Circuit;
use file_words::{ReadError, Spelling};

/// What reads a circuit of either spelling from bytes that come in pieces, however they are cut.
pub trait CircuitReader {
    /// The reader has been given these bytes, and found no fault.
    ghost holds: { Self → List ℕ → Type 0 };

    /// Takes the next bytes.
    ///
    /// # Errors
    ///
    /// The fault that the bytes have so far, whatever follows; `NoMemory` if memory is refused.
    fn feed(&mut self, piece: &[u8]) -> Result<(), ReadError>
        ensures held { (bytes : List ℕ) → holds self.old bytes
            → OnOk result (holds self.new (bytes ++ piece.now)) }
        ensures err { (bytes : List ℕ) → holds self.old bytes
            → IfErr result (IsFeedError (bytes ++ piece.now)) };

    /// Returns the circuit of the bytes, of which there are no more.
    ///
    /// # Errors
    ///
    /// The fault of the bytes; `NoMemory` if memory is refused.
    fn finish(&mut self) -> Result<Circuit, ReadError>
        ensures ok { (bytes : List ℕ) → holds self.old bytes
            → IfOk result (λ circuit. read_any bytes ≡ Ok circuit) }
        ensures err { (bytes : List ℕ) → holds self.old bytes
            → IfErr result (IsFinishError bytes) };

    /// Returns the spelling that the first three bytes tell.
    fn spelling(&self) -> Option<Spelling>
        ensures { (bytes : List ℕ) → holds self.now bytes → result ≡ spelling_of bytes };
}
