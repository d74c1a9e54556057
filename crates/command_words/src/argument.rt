//! An argument of a command, as a line of a table, and what the command-line library makes of it.
use clap::builder::ValueParser;
use clap::{Arg, ArgAction};
use std::alloc::{AllocError, Global};

/// What an argument looks like. An option's value has a name in the help.
#[derive(Clone, Copy)]
pub(crate) enum Form {
    /// A path without a word before it.
    Path,
    /// An option without a value.
    Flag,
    /// An option with a text.
    Text(&'static str),
    /// A text that may be repeated.
    Texts(&'static str),
    /// An option with a text that the help doesn't show.
    Hidden(&'static str),
    /// Returns an option with a number within these bounds.
    Number(u64, u64),
    /// An option with a number from 1 to this one, which has a default.
    Limit(u64, &'static str),
    /// An option with a number from 0 to this one, which may be repeated.
    Numbers(u64),
}

/// Whether an argument may or has to be given, by the others.
#[derive(Clone, Copy)]
pub(crate) enum Tie {
    /// It may be given.
    Free,
    /// It has to be given.
    Always,
    /// It isn't given together with that one.
    Apart(&'static str),
    /// It is given together with that one alone.
    With(&'static str),
    /// It is given together with the first alone, and not with the second.
    WithApart(&'static str, &'static str),
}

/// An argument of a command. It has its name, which is also its word if it has one, its form, the
/// others that it is given with, and its help.
#[derive(Clone, Copy)]
pub(crate) struct Argument(
    pub(crate) &'static str,
    pub(crate) Form,
    pub(crate) Tie,
    pub(crate) &'static str,
);

/// Returns an option that may be repeated, or has one value.
fn option<'a>(alloc: Global, argument: &Argument, value: &'a str, action: ArgAction) -> Arg<'a> {
    let Argument(id, _, _, help) = *argument;
    Arg::new(alloc, id)
        .long(id)
        .value_name(value)
        .action(action)
        .help(help)
}

/// Returns an option with a number within these bounds.
fn number_option<'a>(
    alloc: Global,
    argument: &Argument,
    (least, most): (u64, u64),
    action: ArgAction,
) -> Arg<'a> {
    option(alloc, argument, "n", action).value_parser(ValueParser::unsigned(least, most))
}

/// Returns the argument by its form, which may be given with all others.
fn formed<'a>(alloc: Global, argument: &Argument) -> Arg<'a> {
    let Argument(id, form, _, help) = *argument;
    match form {
        Form::Path => Arg::new(alloc, id).help(help),
        Form::Flag => Arg::new(alloc, id)
            .long(id)
            .action(ArgAction::SetTrue)
            .help(help),
        Form::Text(value) => option(alloc, argument, value, ArgAction::Set),
        Form::Texts(value) => option(alloc, argument, value, ArgAction::Append),
        Form::Hidden(value) => option(alloc, argument, value, ArgAction::Set).hide(true),
        Form::Number(least, most) => number_option(alloc, argument, (least, most), ArgAction::Set),
        Form::Limit(most, default) => {
            number_option(alloc, argument, (1, most), ArgAction::Set).default_value(default)
        }
        Form::Numbers(most) => number_option(alloc, argument, (0, most), ArgAction::Append),
    }
}

/// Returns an argument that is given together with one alone, and not with another.
fn with_apart<'a>(arg: Arg<'a>, one: &'a str, other: &'a str) -> Result<Arg<'a>, AllocError> {
    match arg.conflicts_with(other) {
        Ok(arg) => arg.requires_arg(one),
        Err(error) => Err(error),
    }
}

/// Returns the argument for the command-line library.
pub(crate) fn arg_of<'a>(alloc: Global, argument: &Argument) -> Result<Arg<'a>, AllocError> {
    let arg = formed(alloc, argument);
    let Argument(_, _, tie, _) = *argument;
    match tie {
        Tie::Free => Ok(arg),
        Tie::Always => Ok(arg.required(true)),
        Tie::Apart(other) => arg.conflicts_with(other),
        Tie::With(other) => arg.requires_arg(other),
        Tie::WithApart(one, other) => with_apart(arg, one, other),
    }
}
