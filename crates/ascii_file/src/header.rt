use crate::raw::SymbolKind;

/// The numbers of a header: the greatest variable, and the number of items of each section. The
/// last four may be left out of the file, and are then 0.
#[derive(Clone, Copy)]
pub struct Header {
    pub greatest: u32,
    pub inputs: u32,
    pub latches: u32,
    pub outputs: u32,
    pub gates: u32,
    pub bad: u32,
    pub constraints: u32,
    /// The number of justice properties, of which each has literals of its own.
    pub justice: u32,
    pub fairness: u32,
}

impl Header {
    ghost use Rattle.std.specs.Prelude.{◌≡◌};
    ghost use Rattle.ascii_file.specs.Raw.{count_of};

    /// Returns the number of things of this kind that the header counts, which symbols may name.
    pub fn count_of(&self, kind: SymbolKind) -> u32
        ensures { result ≡ count_of self.now kind }
    {
        match kind {
            SymbolKind::Input => self.inputs,
            SymbolKind::Latch => self.latches,
            SymbolKind::Output => self.outputs,
            SymbolKind::Bad => self.bad,
            SymbolKind::Constraint => self.constraints,
            SymbolKind::Justice => self.justice,
            SymbolKind::Fairness => self.fairness,
        }
    }
}
