use crate::CircuitReader;
use crate::any_reader::AnyReader;
use aig_graph::Circuit;
use file_words::{ReadError, Spelling};

impl CircuitReader for AnyReader {
    ghost use Rattle.aig_binary.specs.Readers.{HoldsEither};

    ghost holds = { HoldsEither };

    fn feed(&mut self, piece: &[u8]) -> Result<(), ReadError> {
        AnyReader::feed(self, piece)
    }

    fn finish(&mut self) -> Result<Circuit, ReadError> {
        AnyReader::finish(self)
    }

    fn spelling(&self) -> Option<Spelling> {
        AnyReader::spelling(self)
    }
}
