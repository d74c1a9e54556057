ghost use Rattle.std.specs.Prelude.{◌≡◌, option_map};
ghost use Rattle.circuit_files.specs.pages.Files.{smallest_file};

use crate::pages::named_fault::Fault;

impl Fault {
    /// Returns a circuit file with this fault, of as few bytes as any, or `None` if no circuit has
    /// it.
    pub fn smallest_file(self) -> Option<&'static str>
        ensures { option_map (λ file. file.now) result ≡ smallest_file self }
    {
        match self {
            Fault::BadHeader => Some(""),
            Fault::TooLarge => Some("aag 0 0 0 16777217 0"),
            Fault::MaxIndex => Some("aag 0 0 0 0 1"),
            Fault::BadLine => Some("aag 0 0 0 1 0\nx"),
            Fault::BadLiteral => Some("aag 1 1 0 0 0\n3"),
            Fault::DefinedTwice => Some("aag 2 2 0 0 0\n2\n2"),
            Fault::Undefined => Some("aag 1 0 0 1 0\n2"),
            Fault::Cycle => Some("aag 1 0 0 0 1\n2 2 1"),
            Fault::BadReset => Some("aag 1 0 1 0 0\n2 2 3"),
            Fault::BadDelta => Some("aig 1 0 0 0 1\n9"),
            Fault::Truncated => Some("aag 0 0 0 1 0"),
            Fault::BadSymbol => Some("aag 0 0 0 0 0\no"),
            Fault::Trailing => Some("aag 0 0 0 0 0\nx"),
            Fault::Width
            | Fault::TooMany
            | Fault::NoSuchName
            | Fault::NoSuchLatch
            | Fault::NoSuchProperty
            | Fault::TooManyNodes
            | Fault::TooManySteps
            | Fault::NotAMap
            | Fault::NoSuchLiteral
            | Fault::ShapesDiffer
            | Fault::NotClosed
            | Fault::BadRoute
            | Fault::UsedTwice
            | Fault::CountDiffers
            | Fault::TooLong
            | Fault::Misread
            | Fault::NotShown
            | Fault::NoMemory
            | Fault::Device => None,
        }
    }
}
