//! Circuits, certificates, stimuli, witnesses and lists have some faults of one name, and a user
//! looks for the name that was printed. So a fault is a name here, and has one page for all kinds
//! of files.
ghost use Rattle.std.specs.Prelude.{◌≡◌, MatchOption, true};
ghost use Rattle.circuit_files.specs.pages.Faults.{all_faults, has_name, HaveOtherNames, IsCalled, IsNoName, name_of, said_of};

/// A fault that the program names.
#[derive(Clone, Copy)]
pub enum Fault {
    BadHeader,
    TooLarge,
    MaxIndex,
    BadLine,
    BadLiteral,
    DefinedTwice,
    Undefined,
    Cycle,
    BadReset,
    BadDelta,
    Truncated,
    BadSymbol,
    Trailing,
    Width,
    TooMany,
    NoSuchName,
    NoSuchLatch,
    NoSuchProperty,
    TooManyNodes,
    TooManySteps,
    NotAMap,
    NoSuchLiteral,
    ShapesDiffer,
    NotClosed,
    BadRoute,
    UsedTwice,
    CountDiffers,
    TooLong,
    Misread,
    NotShown,
    NoMemory,
    Device,
}

const FAULTS: [Fault; 32] = [
    Fault::BadHeader,
    Fault::TooLarge,
    Fault::MaxIndex,
    Fault::BadLine,
    Fault::BadLiteral,
    Fault::DefinedTwice,
    Fault::Undefined,
    Fault::Cycle,
    Fault::BadReset,
    Fault::BadDelta,
    Fault::Truncated,
    Fault::BadSymbol,
    Fault::Trailing,
    Fault::Width,
    Fault::TooMany,
    Fault::NoSuchName,
    Fault::NoSuchLatch,
    Fault::NoSuchProperty,
    Fault::TooManyNodes,
    Fault::TooManySteps,
    Fault::NotAMap,
    Fault::NoSuchLiteral,
    Fault::ShapesDiffer,
    Fault::NotClosed,
    Fault::BadRoute,
    Fault::UsedTwice,
    Fault::CountDiffers,
    Fault::TooLong,
    Fault::Misread,
    Fault::NotShown,
    Fault::NoMemory,
    Fault::Device,
];

impl Fault {
    /// Returns all faults: those of a circuit first, in the order of `docs/FORMAT.md`.
    #[tactic(auto, unfolding(crate::specs::pages::Faults::all_faults))]
    pub fn all() -> &'static [Fault]
        ensures { result.now ≡ all_faults }
    {
        &FAULTS
    }

    /// Returns the name that reports have for it, and most messages.
    pub fn name(self) -> &'static str
        ensures { result.now ≡ name_of self }
    {
        match self {
            Fault::BadHeader => "BadHeader",
            Fault::TooLarge => "TooLarge",
            Fault::MaxIndex => "MaxIndex",
            Fault::BadLine => "BadLine",
            Fault::BadLiteral => "BadLiteral",
            Fault::DefinedTwice => "DefinedTwice",
            Fault::Undefined => "Undefined",
            Fault::Cycle => "Cycle",
            Fault::BadReset => "BadReset",
            Fault::BadDelta => "BadDelta",
            Fault::Truncated => "Truncated",
            Fault::BadSymbol => "BadSymbol",
            Fault::Trailing => "Trailing",
            Fault::Width => "Width",
            Fault::TooMany => "TooMany",
            Fault::NoSuchName => "NoSuchName",
            Fault::NoSuchLatch => "NoSuchLatch",
            Fault::NoSuchProperty => "NoSuchProperty",
            Fault::TooManyNodes => "TooManyNodes",
            Fault::TooManySteps => "TooManySteps",
            Fault::NotAMap => "NotAMap",
            Fault::NoSuchLiteral => "NoSuchLiteral",
            Fault::ShapesDiffer => "ShapesDiffer",
            Fault::NotClosed => "NotClosed",
            Fault::BadRoute => "BadRoute",
            Fault::UsedTwice => "UsedTwice",
            Fault::CountDiffers => "CountDiffers",
            Fault::TooLong => "TooLong",
            Fault::Misread => "Misread",
            Fault::NotShown => "NotShown",
            Fault::NoMemory => "NoMemory",
            Fault::Device => "Device",
        }
    }

    /// Returns the words of a message: the name, but of three faults other words.
    fn said(self) -> &'static str
        ensures { result.now ≡ said_of self }
    {
        match self {
            Fault::ShapesDiffer => "shapes differ",
            Fault::NoMemory => "out of memory",
            Fault::Device => "device",
            fault => fault.name(),
        }
    }

    /// Returns the fault of this name, or the one of which a message says this.
    pub fn named(name: &str) -> Option<Fault>
        ensures { MatchOption result (IsNoName name.now) (IsCalled name.now) }
    {
        named_among(Fault::all(), name)
    }
}

/// Returns true if a fault has the name, or a message says this of it.
fn has_name(fault: Fault, name: &str) -> bool
    ensures { result ≡ has_name name.now fault }
{
    fault.name() == name || fault.said() == name
}

/// Returns the first of these faults that has the name.
fn named_among(faults: &[Fault], name: &str) -> Option<Fault>
    ensures { MatchOption result (HaveOtherNames faults.now name.now)
        (λ fault. has_name name.now fault ≡ true) }
{
    for fault in faults {
        if has_name(*fault, name) {
            return Some(*fault);
        }
    }
    None
}
