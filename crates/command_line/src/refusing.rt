//! Errors of a command line that the program finds itself, in the form of those of the command-line
//! library.
ghost use Rattle.std.specs.Prelude.{◌≡◌, ◌⊎◌, IfOk};
ghost use Rattle.clap.specs.Values.{kind_of};
ghost use Rattle.clap.specs.declared.error.kind.ErrorKind.TheVariants.{OutOfMemory};

use clap::error::ErrorKind;
use clap::{Command, Error};
use command_words::command_named;
use std::alloc::Global;

/// Returns an error of this kind that says this, with the usage of a command.
fn error_with_usage(mut command: Command<'_>, kind: ErrorKind, message: &str) -> Error
    ensures { (kind_of result ≡ kind) ⊎ (kind_of result ≡ OutOfMemory) }
{
    let error = command.error(kind, message);
    drop(command);
    match error {
        Ok(error) => error,
        Err(error) => Error::from(error),
    }
}

/// Returns an error of this kind of the command with this name, that says this, with its usage.
/// Memory may be refused.
pub fn command_error(alloc: Global, name: &str, kind: ErrorKind, message: &str) -> Error
    ensures { (kind_of result ≡ kind) ⊎ (kind_of result ≡ OutOfMemory) }
{
    match command_named(alloc, name) {
        Ok(command) => error_with_usage(command, kind, message),
        Err(error) => Error::from(error),
    }
}
