//! Why a command failed, as an object of JSON.
ghost use Rattle.std.specs.Prelude.{◌≡◌};
ghost use Rattle.circuit_files.specs.Codes.{status_of};
ghost use Rattle.circuit_files.specs.Outcomes.{outcome_of};
ghost use Rattle.command_endings.specs.Objects.{PrintsRefusal, SaysRefusal};
ghost use Rattle.command_endings.specs.Objects as wanted;

use circuit_files::Failure;
use counted_io::CountedWrite;
use file_words::ReadError;
use json_reports::{Fault, Refusal, print_refusal};
use std::alloc::Global;

/// Returns the fault that a failure is.
pub fn fault_of(failure: Failure<'_>) -> Fault
    ensures { result ≡ wanted.fault_of failure.entry }
{
    match failure {
        Failure::Refused(_, fault) => Fault::Circuit(fault),
        Failure::RefusedStimulus(_, fault) => Fault::Stimulus(fault),
        Failure::RefusedList(_, fault) => Fault::FileList(fault),
        Failure::RefusedCertificates(_, fault) => Fault::Certificates(fault),
        Failure::RefusedWitness(_, fault) => Fault::Witness(fault),
        Failure::NoSuchName(_, _) => Fault::NoSuchName,
        Failure::NoSuchLatch(_, _) => Fault::NoSuchLatch,
        Failure::Misread(_, _) => Fault::Misread,
        Failure::NotShown(_, _) => Fault::NotShown,
        Failure::TooManyNodes(_) => Fault::TooManyNodes,
        Failure::TooManySteps(_) => Fault::TooManySteps,
        Failure::NotAMap(_) => Fault::NotAMap,
        Failure::NoSuchLiteral(_) => Fault::NoSuchLiteral,
        Failure::Device(_) => Fault::Device,
        Failure::Memory => Fault::Circuit(ReadError::NoMemory),
    }
}

/// Returns the name that is that of no latch.
fn name_of<'a>(failure: Failure<'a>) -> Option<&'a str>
    ensures { result ≡ wanted.name_of failure.entry }
{
    match failure {
        Failure::NoSuchName(_, name) => Some(name),
        _ => None,
    }
}

/// Returns what is printed of a failure of this command.
fn refusal_of<'a>(command: &'a str, failure: Failure<'a>) -> Refusal<'a>
    ensures { result ≡ wanted.refusal_of command.entry failure.entry }
{
    Refusal {
        command,
        fault: fault_of(failure),
        latch: name_of(failure),
        path: failure.path(),
        status: failure.outcome().status(),
    }
}

/// Prints why this command failed as an object of JSON on a line, if there is room for it. A failed
/// write changes nothing.
pub fn print_failure<O: CountedWrite>(
    alloc: Global,
    command: &str,
    failure: Failure<'_>,
    out: &mut O,
)
    ensures refuses { PrintsRefusal (status_of (outcome_of failure.entry)) (O.output out.old)
        (O.output out.new) }
    ensures says { SaysRefusal (wanted.refusal_of command.entry failure.entry) (O.output out.old)
        (O.output out.new) }
{
    let refusal = refusal_of(command, failure);
    let _ = print_refusal(alloc, &refusal, out);
}
