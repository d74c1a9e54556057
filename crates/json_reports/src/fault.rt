//! The reasons why a command failed, over the faults of all kinds of files. Each has its name and
//! offset in the crate that declares it.
ghost use Rattle.std.specs.Prelude.{◌≡◌, IfOk};
ghost use Rattle.serde_json.specs.View.{view};
ghost use Rattle.json_reports.specs.Faults.{fault_data};

use crate::members::{Scalar, scalars_object};
use certificate_files::CertError;
use circuit_files::ListError;
use file_words::ReadError;
use lane_sim::StimError;
use serde_json::Value;
use std::alloc::{AllocError, Global};
use witnesses::WitnessError;

/// Why a command failed.
#[derive(Clone, Copy)]
pub enum Fault {
    /// A file is no circuit, or can't be read as one.
    Circuit(ReadError),
    /// A file is no stimulus.
    Stimulus(StimError),
    /// A file is no list of files.
    FileList(ListError),
    /// A file isn't one of certificates.
    Certificates(CertError),
    /// A file isn't a witness for the circuit.
    Witness(WitnessError),
    /// A name is that of no latch.
    NoSuchName,
    /// A place is that of no latch.
    NoSuchLatch,
    /// A line of merged latches names what no latch reads as.
    Misread,
    /// A merged latch isn't shown to agree with what it reads as.
    NotShown,
    /// A circuit has too many nodes for a picture.
    TooManyNodes,
    /// Random sequences of a circuit would take too much memory.
    TooManySteps,
    /// A circuit of a map has a latch, a bad state, a justice property or a fairness constraint.
    NotAMap,
    /// A name of a witness circuit says a literal that its circuit hasn't, or one that another name
    /// says.
    NoSuchLiteral,
    /// A file couldn't be opened, created, read or written.
    Device,
}

impl Fault {
    ghost use Rattle.json_reports.specs.Faults.{fault_name, fault_offset};

    /// Returns its name, as in the message on standard error.
    pub fn name(self) -> &'static str
        ensures { result.now ≡ fault_name self }
    {
        match self {
            Fault::Circuit(fault) => fault.name(),
            Fault::Stimulus(fault) => fault.name(),
            Fault::FileList(fault) => fault.name(),
            Fault::Certificates(fault) => fault.name(),
            Fault::Witness(fault) => fault.name(),
            Fault::NoSuchName => "NoSuchName",
            Fault::NoSuchLatch => "NoSuchLatch",
            Fault::Misread => "Misread",
            Fault::NotShown => "NotShown",
            Fault::TooManyNodes => "TooManyNodes",
            Fault::TooManySteps => "TooManySteps",
            Fault::NotAMap => "NotAMap",
            Fault::NoSuchLiteral => "NoSuchLiteral",
            Fault::Device => "Device",
        }
    }

    /// Returns the offset of the first byte of the line or delta at fault, if it has one.
    pub fn offset(self) -> Option<u64>
        ensures { result ≡ fault_offset self }
    {
        match self {
            Fault::Circuit(fault) => fault.offset(),
            Fault::Stimulus(fault) => fault.offset(),
            Fault::FileList(fault) => fault.offset(),
            Fault::Certificates(fault) => fault.offset(),
            Fault::Witness(fault) => fault.offset(),
            Fault::NoSuchName
            | Fault::NoSuchLatch
            | Fault::Misread
            | Fault::NotShown
            | Fault::TooManyNodes
            | Fault::TooManySteps
            | Fault::NotAMap
            | Fault::NoSuchLiteral
            | Fault::Device => None,
        }
    }
}

/// Returns the name of a fault, and its offset.
pub(crate) fn fault_object(alloc: Global, fault: Fault) -> Result<Value, AllocError>
    ensures { IfOk result (λ v. view v ≡ fault_data fault) }
{
    scalars_object(
        alloc,
        &[
            ("name", Scalar::Text(fault.name())),
            ("offset", Scalar::CountIfAny(fault.offset())),
        ],
    )
}
