ghost use Rattle.std.specs.Prelude.{◌≡◌};
ghost use Rattle.certificates.specs.Objections.{code_of, objection_name};

/// What a certificate is worth for a circuit.
#[derive(Clone, Copy, PartialEq, Eq)]
pub enum Verdict {
    /// The set is least, and the count is the size of its border.
    Yes,
    /// The first test that the certificate fails.
    No(Objection),
}

/// Why a certificate doesn't show that its set is least, in the order of the tests.
#[derive(Clone, Copy, Debug, PartialEq, Eq)]
pub enum Objection {
    /// The gates don't rise, one isn't a passable gate, or a fan-in of one is neither a latch nor
    /// among them.
    NotClosed,
    /// A route isn't one of the circuit.
    BadRoute,
    /// Two routes pass after one variable, or one does twice.
    UsedTwice,
    /// The stated count, the size of the border and the number of routes aren't all equal.
    CountDiffers,
}

impl Objection {
    /// Returns the number of the objection, from 1, in the order of the tests.
    pub fn code(self) -> u8
        ensures { result ≡ code_of self }
    {
        match self {
            Objection::NotClosed => 1,
            Objection::BadRoute => 2,
            Objection::UsedTwice => 3,
            Objection::CountDiffers => 4,
        }
    }

    /// Returns its name, as reports print it.
    pub fn name(self) -> &'static str
        ensures { result.now ≡ objection_name self }
    {
        match self {
            Objection::NotClosed => "NotClosed",
            Objection::BadRoute => "BadRoute",
            Objection::UsedTwice => "UsedTwice",
            Objection::CountDiffers => "CountDiffers",
        }
    }
}
