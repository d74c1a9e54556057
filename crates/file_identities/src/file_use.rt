//! A file that a command line names.
ghost use Rattle.std.specs.Prelude.{◌≡◌};
ghost use Rattle.file_identities.specs.Clashes as wanted;

use std::fmt;
use std::fmt::{Display, Formatter};

/// What a file is named by.
#[derive(Clone, Copy)]
pub enum Argument {
    /// The circuit that is read.
    In,
    /// The circuit, or picture, that is written, and the circuit that was made.
    Out,
    /// The map of states that is read.
    Map,
    /// The option for the map of states that is written.
    MapOption,
    /// The option for certificates.
    Cert,
    /// The option for the certificates whose merged latches are merged.
    Classes,
    /// The list of a batch.
    List,
    /// The first of two circuits that are compared.
    First,
    /// The second one.
    Second,
    /// The option for the list of the free latches that the second one has.
    Kept,
    /// The certificates that are read.
    Certificates,
    /// The option for the circuit in which certificates end.
    OutOption,
    /// The stimulus.
    Stim,
    /// The option for waves.
    Vcd,
    /// The miter.
    MiterFile,
    /// The option for the certificate of a miter.
    Certificate,
    /// The model of two circuits.
    ModelFile,
    /// The certificate of that model.
    CertificateFile,
    /// The witness circuit that is read.
    WitnessFile,
    /// The witness circuit that is written.
    ResultFile,
    /// The witness that is read.
    Witness,
    /// The option for a file of names.
    KeepFrom,
    /// The option for a line a frame.
    Progress,
    /// None: what is printed.
    Printed,
}

impl Argument {
    /// Returns the name that the usage of its command has.
    fn name(self) -> &'static str {
        match self {
            Argument::In => "IN",
            Argument::Out => "OUT",
            Argument::Map => "MAP",
            Argument::MapOption => "--map",
            Argument::Cert => "--cert",
            Argument::Classes => "--classes",
            Argument::List => "LIST",
            Argument::First => "A",
            Argument::Second => "B",
            Argument::Kept => "--kept",
            Argument::Certificates => "CERT",
            Argument::OutOption => "--out",
            Argument::Stim => "STIM",
            Argument::Vcd => "--vcd",
            Argument::MiterFile => "MITER",
            Argument::Certificate => "--certificate",
            Argument::ModelFile => "MODEL",
            Argument::CertificateFile => "CERT",
            Argument::WitnessFile => "CERT",
            Argument::ResultFile => "RESULT",
            Argument::Witness => "WITNESS",
            Argument::KeepFrom => "--keep-from",
            Argument::Progress => "--progress",
            Argument::Printed => "what is printed",
        }
    }
}

/// What a file is there for.
#[derive(Clone, Copy)]
pub enum Role {
    /// It is read, and the circuit that is made of it may take its place.
    Original,
    /// It is read.
    Read,
    /// It is written: a circuit that is made of another one.
    Remade,
    /// It is written, and takes the place of nothing.
    Written,
    /// Lines are printed there.
    Lines,
    /// A line is printed there, if nothing is written.
    LineInstead,
}

impl Role {
    pub(crate) fn is_written(self) -> bool
        ensures { result ≡ wanted.is_written self }
    {
        match self {
            Role::Original | Role::Read => false,
            Role::Remade | Role::Written | Role::Lines | Role::LineInstead => true,
        }
    }

    /// Returns true if two that are written may stand in one file.
    pub(crate) fn stands_with(self, other: Role) -> bool
        ensures { result ≡ wanted.stand_together self other }
    {
        match (self, other) {
            (Role::Lines, Role::Lines)
            | (Role::Remade, Role::Remade)
            | (Role::Remade, Role::LineInstead)
            | (Role::Written, Role::LineInstead) => true,
            _ => false,
        }
    }
}

/// The place of a file.
#[derive(Clone, Copy)]
pub enum Place<'a> {
    /// Standard input.
    Stdin,
    /// Standard output.
    Stdout,
    /// Standard error.
    Stderr,
    /// The path that was given.
    File(&'a str),
}

impl<'a> Place<'a> {
    /// Returns true if it is the stream that `-` names.
    pub(crate) fn is_stream(self) -> bool
        ensures { result ≡ wanted.is_stream_place self.entry }
    {
        match self {
            Place::Stdin | Place::Stdout => true,
            Place::Stderr | Place::File(_) => false,
        }
    }

    pub(crate) fn is_stderr(self) -> bool
        ensures { result ≡ wanted.is_stderr self.entry }
    {
        match self {
            Place::Stderr => true,
            Place::Stdin | Place::Stdout | Place::File(_) => false,
        }
    }

    /// Returns true if a file is made anew there, in place of one that exists.
    fn is_path(self) -> bool
        ensures { result ≡ wanted.is_path self.entry }
    {
        match self {
            Place::File(_) => true,
            Place::Stdin | Place::Stdout | Place::Stderr => false,
        }
    }

    /// Returns the path that the file system is asked for.
    pub(crate) fn path(self) -> &'a str {
        match self {
            Place::Stdin => "/dev/stdin",
            Place::Stdout => "/dev/stdout",
            Place::Stderr => "/dev/stderr",
            Place::File(path) => path,
        }
    }

    /// Returns the word that was given.
    fn word(self) -> &'a str {
        match self {
            Place::Stdin | Place::Stdout => "-",
            Place::Stderr => "/dev/stderr",
            Place::File(path) => path,
        }
    }
}

/// A file that a command line names.
#[derive(Clone, Copy)]
pub struct FileUse<'a> {
    /// The argument that names it.
    pub argument: Argument,
    /// What it is there for.
    pub role: Role,
    /// Its place.
    pub place: Place<'a>,
}

impl FileUse<'_> {
    ghost use Rattle.std.specs.Prelude.{◌≡◌};
    ghost use Rattle.file_identities.specs.Clashes as wanted;

    /// Returns true if what is written may take the place of what is read: a path is made anew, a
    /// stream isn't.
    pub(crate) fn replaces(&self, other: &FileUse<'_>) -> bool
        ensures { result ≡ wanted.replaces self.now other.now }
    {
        match (self.role, other.role) {
            (Role::Remade, Role::Original) => self.place.is_path(),
            _ => false,
        }
    }

    /// Returns true if the one or the other is standard error.
    pub(crate) fn is_aside(&self, other: &FileUse<'_>) -> bool
        ensures { result ≡ wanted.is_aside self.now other.now }
    {
        self.place.is_stderr() || other.place.is_stderr()
    }
}

impl Display for FileUse<'_> {
    fn fmt<W: fmt::Write>(&self, f: &mut Formatter<W>) -> fmt::Result {
        write!(f, "{} '{}'", self.argument.name(), self.place.word())
    }
}
