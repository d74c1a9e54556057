//! A command by its name, to take its usage from.
use crate::program::{command_of, program_command};
use crate::subcommands::{COUNT, Subcommand, subcommand_at};
use clap::Command;
use std::alloc::{AllocError, Global};

/// Returns the command with this name.
fn subcommand_named(name: &str) -> Option<Subcommand> {
    for number in 0..COUNT {
        let subcommand = subcommand_at(number);
        if subcommand.name == name {
            return Some(subcommand);
        }
    }
    None
}

/// Returns a command that calls itself by the program's name and its own.
fn command_below<'a>(alloc: Global, subcommand: &Subcommand) -> Result<Command<'a>, AllocError> {
    let name = format!(in alloc; "fretime {}", subcommand.name)?;
    let command = command_of(alloc, subcommand)?.bin_name(name.as_str());
    drop(name);
    command
}

/// Returns the command with this name, else the program.
pub fn command_named<'a>(alloc: Global, name: &str) -> Result<Command<'a>, AllocError> {
    match subcommand_named(name) {
        Some(subcommand) => command_below(alloc, &subcommand),
        None => program_command(alloc),
    }
}
