//! Help, the version, and mistakes in the arguments, on standard error.
ghost use Rattle.std.specs.Prelude.{◌≡◌, ◌≢◌, ◌⊎◌};
ghost use Rattle.clap.specs.Values.{kind_of};
ghost use Rattle.clap.specs.declared.error.kind.ErrorKind.TheVariants.{DisplayHelp, DisplayVersion, OutOfMemory};
ghost use Rattle.circuit_files.specs.declared.outcome.Outcome.TheVariants.{Done, CommandLine, Memory};

use crate::reporting::report_failure;
use circuit_files::{Failure, Message, Outcome};
use clap::Error;
use clap::error::ErrorKind;
use counted_io::CountedWrite;
use std::fmt::Write;

/// Prints help, the version, or what is wrong with the arguments, and returns how the run ends. A
/// failed write changes nothing.
pub(crate) fn report_usage<E: CountedWrite>(
    error: &Error,
    is_terminal: bool,
    err: &mut E,
) -> Outcome
    ensures ends { (result ≡ Done) ⊎ (result ≡ CommandLine) ⊎ (result ≡ Memory) }
    ensures memory { kind_of error.now ≡ OutOfMemory → result ≡ Memory }
    ensures shown { (kind_of error.now ≡ DisplayHelp) ⊎ (kind_of error.now ≡ DisplayVersion)
        → result ≡ Done }
    ensures mistake { kind_of error.now ≢ OutOfMemory → kind_of error.now ≢ DisplayHelp
        → kind_of error.now ≢ DisplayVersion → result ≡ CommandLine }
{
    if error.kind() == ErrorKind::OutOfMemory {
        return report_failure(Failure::Memory, is_terminal, err);
    }
    let mut message = Message::new(err, is_terminal);
    let _ = write!(message, "{error}");
    message.send();
    if error.use_stderr() {
        Outcome::CommandLine
    } else {
        Outcome::Done
    }
}

/// Prints a command line's error as [`report_usage`] does, and drops it.
pub(crate) fn refuse_line<E: CountedWrite>(error: Error, is_terminal: bool, err: &mut E) -> Outcome
    ensures { (result ≡ Done) ⊎ (result ≡ CommandLine) ⊎ (result ≡ Memory) }
{
    let outcome = report_usage(&error, is_terminal, err);
    drop(error);
    outcome
}
