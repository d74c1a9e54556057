//! The ends of runs, and the failures of commands. All errors of the libraries come down to the few
//! that a user tells apart by the exit status. Each has the path of its file.
ghost use Rattle.std.specs.Prelude.{◌≡◌};
ghost use Rattle.circuit_files.specs.Outcomes.{outcome_of, path_of, failure_of_bytes, failure_of_certificates, failure_of_list, failure_of_reading, failure_of_stimulus, failure_of_witness};

use crate::ListError;
use certificate_files::CertError;
use counted_io::ReadAllError;
use file_words::ReadError;
use lane_sim::StimError;
use std::fmt;
use std::fmt::{Display, Formatter};
use witnesses::WitnessError;

/// How a run ended.
#[derive(Clone, Copy, Debug, PartialEq, Eq)]
pub enum Outcome {
    /// All was done.
    Done,
    /// A file isn't what it should be.
    Refused,
    /// Two circuits can't be compared.
    ShapesDiffer,
    /// The arguments are no command of the program.
    CommandLine,
    /// A file couldn't be opened, created, read or written.
    Device,
    /// Out of memory.
    Memory,
    /// Two circuits differ.
    Differ,
    /// A certificate is rejected, a witness isn't confirmed, or a retiming isn't shown to be one.
    Unconfirmed,
}

impl Outcome {
    ghost use Rattle.circuit_files.specs.Codes.{status_of};

    /// Returns the exit status.
    pub fn status(self) -> u8
        ensures { result ≡ status_of self }
    {
        match self {
            Outcome::Done => 0,
            Outcome::Refused | Outcome::ShapesDiffer => 1,
            Outcome::CommandLine => 2,
            Outcome::Device => 3,
            Outcome::Memory => 4,
            Outcome::Differ | Outcome::Unconfirmed => 5,
        }
    }
}

/// Why a command failed, with the path of the file, or `stdin` or `stdout`. Its `Display` is the
/// message on standard error, without a newline.
#[derive(Clone, Copy, Debug)]
pub enum Failure<'a> {
    /// The circuit has a fault.
    Refused(&'a str, ReadError),
    /// The stimulus has a fault.
    RefusedStimulus(&'a str, StimError),
    /// The list of files has a fault.
    RefusedList(&'a str, ListError),
    /// The file of certificates has a fault.
    RefusedCertificates(&'a str, CertError),
    /// The witness has a fault.
    RefusedWitness(&'a str, WitnessError),
    /// No latch of the circuit has the name.
    NoSuchName(&'a str, &'a str),
    /// The circuit has no latch at the place.
    NoSuchLatch(&'a str, u32),
    /// No reading of the circuit has the file's line of this latch.
    Misread(&'a str, u32),
    /// This latch of the file isn't shown to agree with what its line says.
    NotShown(&'a str, u32),
    /// The circuit has too many nodes for a picture.
    TooManyNodes(&'a str),
    /// Random sequences of the circuit would take too much memory.
    TooManySteps(&'a str),
    /// The circuit of a map has a latch, a bad state, a justice property or a fairness constraint.
    NotAMap(&'a str),
    /// A name of a witness circuit says a literal that its circuit hasn't, or one that another name
    /// says.
    NoSuchLiteral(&'a str),
    /// The file couldn't be opened, created, read or written.
    Device(&'a str),
    /// Out of memory.
    Memory,
}

impl<'a> Failure<'a> {
    /// Returns the failure of an error of reading a circuit, with the file's path.
    pub fn of_reading(error: ReadError, path: &'a str) -> Failure<'a>
        ensures { result ≡ failure_of_reading error path.entry }
    {
        match error {
            ReadError::NoMemory => Failure::Memory,
            ReadError::Device => Failure::Device(path),
            fault => Failure::Refused(path, fault),
        }
    }

    /// Returns the failure of an error of reading a stimulus, with the file's path.
    pub fn of_stimulus(error: StimError, path: &'a str) -> Failure<'a>
        ensures { result ≡ failure_of_stimulus error path.entry }
    {
        match error {
            StimError::NoMemory => Failure::Memory,
            fault => Failure::RefusedStimulus(path, fault),
        }
    }

    /// Returns the failure of an error of reading a list of files, with the list's path.
    pub fn of_list(error: ListError, path: &'a str) -> Failure<'a>
        ensures { result ≡ failure_of_list error path.entry }
    {
        match error {
            ListError::NoMemory => Failure::Memory,
            fault => Failure::RefusedList(path, fault),
        }
    }

    /// Returns the failure of an error of reading certificates, with the file's path.
    pub fn of_certificates(error: CertError, path: &'a str) -> Failure<'a>
        ensures { result ≡ failure_of_certificates error path.entry }
    {
        match error {
            CertError::NoMemory => Failure::Memory,
            fault => Failure::RefusedCertificates(path, fault),
        }
    }

    /// Returns the failure of an error of reading a witness, with the file's path.
    pub fn of_witness(error: WitnessError, path: &'a str) -> Failure<'a>
        ensures { result ≡ failure_of_witness error path.entry }
    {
        match error {
            WitnessError::NoMemory => Failure::Memory,
            fault => Failure::RefusedWitness(path, fault),
        }
    }

    /// Returns the failure of an error of reading all bytes, with the file's path.
    pub fn of_bytes(error: ReadAllError, path: &'a str) -> Failure<'a>
        ensures { result ≡ failure_of_bytes error path.entry }
    {
        match error {
            ReadAllError::NoMemory => Failure::Memory,
            ReadAllError::Device => Failure::Device(path),
        }
    }

    /// Returns the outcome of a run with this failure.
    pub fn outcome(self) -> Outcome
        ensures { result ≡ outcome_of self.entry }
    {
        match self {
            Failure::Refused(_, _)
            | Failure::RefusedStimulus(_, _)
            | Failure::RefusedList(_, _)
            | Failure::RefusedCertificates(_, _)
            | Failure::RefusedWitness(_, _)
            | Failure::NoSuchName(_, _)
            | Failure::NoSuchLatch(_, _)
            | Failure::Misread(_, _)
            | Failure::NotShown(_, _)
            | Failure::TooManyNodes(_)
            | Failure::TooManySteps(_)
            | Failure::NotAMap(_)
            | Failure::NoSuchLiteral(_) => Outcome::Refused,
            Failure::Device(_) => Outcome::Device,
            Failure::Memory => Outcome::Memory,
        }
    }

    /// Returns the path of the file; none if memory was refused.
    pub fn path(self) -> Option<&'a str>
        ensures { result ≡ path_of self.entry }
    {
        match self {
            Failure::Refused(path, _)
            | Failure::RefusedStimulus(path, _)
            | Failure::RefusedList(path, _)
            | Failure::RefusedCertificates(path, _)
            | Failure::RefusedWitness(path, _)
            | Failure::NoSuchName(path, _)
            | Failure::NoSuchLatch(path, _)
            | Failure::Misread(path, _)
            | Failure::NotShown(path, _) => Some(path),
            Failure::TooManyNodes(path)
            | Failure::TooManySteps(path)
            | Failure::NotAMap(path)
            | Failure::NoSuchLiteral(path)
            | Failure::Device(path) => Some(path),
            Failure::Memory => None,
        }
    }

    /// Returns what is wrong, as far as it doesn't depend on the file.
    fn title(self) -> &'static str {
        match self {
            Failure::NoSuchName(_, _) => "NoSuchName ",
            Failure::NoSuchLatch(_, _) => "NoSuchLatch ",
            Failure::Misread(_, _) => "Misread ",
            Failure::NotShown(_, _) => "NotShown ",
            Failure::TooManyNodes(_) => {
                "TooManyNodes, over 2000: --around NAME draws a neighbourhood"
            }
            Failure::TooManySteps(_) => "TooManySteps: take fewer steps or sequences",
            Failure::NotAMap(_) => "NotAMap",
            Failure::NoSuchLiteral(_) => "NoSuchLiteral",
            Failure::Device(_) => "device",
            Failure::Memory => "out of memory",
            _ => "",
        }
    }
}

/// The path of the file, and what is wrong.
impl Display for Failure<'_> {
    fn fmt<W: fmt::Write>(&self, f: &mut Formatter<W>) -> fmt::Result {
        if let Some(path) = self.path() {
            write!(f, "{path}: ")?;
        }
        f.write_str(self.title())?;
        match self {
            Failure::Refused(_, fault) => fault.fmt(f),
            Failure::RefusedStimulus(_, fault) => fault.fmt(f),
            Failure::RefusedList(_, fault) => fault.fmt(f),
            Failure::RefusedCertificates(_, fault) => fault.fmt(f),
            Failure::RefusedWitness(_, fault) => fault.fmt(f),
            Failure::NoSuchName(_, name) => f.write_str(name),
            Failure::NoSuchLatch(_, position) => position.fmt(f),
            Failure::Misread(_, latch) => latch.fmt(f),
            Failure::NotShown(_, latch) => latch.fmt(f),
            _ => Ok(()),
        }
    }
}
