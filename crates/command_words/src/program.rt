//! The program for the command-line library, made of the tables. Each of the library's calls
//! returns a command or a refusal of memory.
use crate::argument::{Argument, arg_of};
use crate::subcommands::{COUNT, PROGRAM, Subcommand, subcommand_at};
use clap::{ArgGroup, Command};
use std::alloc::{AllocError, Global};

/// Returns a command with one more argument.
fn with_argument<'a>(
    alloc: Global,
    command: Command<'a>,
    argument: &Argument,
) -> Result<Command<'a>, AllocError> {
    match arg_of(alloc, argument) {
        Ok(arg) => command.arg(arg),
        Err(error) => {
            drop(command);
            Err(error)
        }
    }
}

/// Returns a command with more arguments.
fn with_arguments<'a>(
    alloc: Global,
    command: Command<'a>,
    arguments: &[Argument],
) -> Result<Command<'a>, AllocError> {
    let mut command = command;
    for argument in arguments {
        command = with_argument(alloc, command, argument)?;
    }
    Ok(command)
}

/// Returns a command without arguments, whose help is shown if it is given nothing.
fn described<'a>(alloc: Global, subcommand: &Subcommand) -> Command<'a> {
    let command = Command::new(alloc, subcommand.name)
        .about(subcommand.about)
        .arg_required_else_help(true);
    let command = match subcommand.long_about {
        Some(text) => command.long_about(text),
        None => command,
    };
    match subcommand.example {
        Some(text) => command.after_help(text),
        None => command,
    }
}

/// Returns the arguments of which a command that takes a stimulus wants one.
fn stimulus<'a>(alloc: Global) -> Result<ArgGroup<'a>, AllocError> {
    let group = ArgGroup::new(alloc, "stimulus")
        .required(true)
        .multiple(true);
    group.arg("STIM")?.arg("random")
}

/// Has a command that takes a stimulus want it read or random, with a usage that says so.
fn with_stimulus<'a>(
    alloc: Global,
    command: Command<'a>,
    usage: &'a str,
) -> Result<Command<'a>, AllocError> {
    match stimulus(alloc) {
        Ok(group) => command.override_usage(usage).group(group),
        Err(error) => {
            drop(command);
            Err(error)
        }
    }
}

/// Returns a command.
pub(crate) fn command_of<'a>(
    alloc: Global,
    subcommand: &Subcommand,
) -> Result<Command<'a>, AllocError> {
    let command = described(alloc, subcommand);
    match subcommand.stimulus_usage {
        Some(usage) => {
            let command = with_stimulus(alloc, command, usage)?;
            with_arguments(alloc, command, subcommand.arguments)
        }
        None => with_arguments(alloc, command, subcommand.arguments),
    }
}

/// Returns a program with one more command.
fn with_subcommand<'a>(
    alloc: Global,
    program: Command<'a>,
    subcommand: &Subcommand,
) -> Result<Command<'a>, AllocError> {
    match command_of(alloc, subcommand) {
        Ok(command) => program.subcommand(command),
        Err(error) => {
            drop(program);
            Err(error)
        }
    }
}

/// Returns the program without its commands.
fn bare_program<'a>(alloc: Global) -> Command<'a> {
    described(alloc, &PROGRAM)
        .version("0.8.0-dev")
        .subcommand_required(true)
}

/// Returns the program's commands, in the order of the help text.
pub fn program_command<'a>(alloc: Global) -> Result<Command<'a>, AllocError> {
    let mut program = bare_program(alloc);
    for number in 0..COUNT {
        program = with_subcommand(alloc, program, &subcommand_at(number))?;
    }
    Ok(program)
}
