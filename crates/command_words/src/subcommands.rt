//! The program's commands, in the order of its help. Some make circuits, some look at them, some
//! check the frames of a retiming, and some are about maps of states.
use crate::argument::Argument;
use crate::{arguments, texts};

/// A command, as it is described to the library of command lines.
#[derive(Clone, Copy)]
pub(crate) struct Subcommand {
    /// The word for it.
    pub(crate) name: &'static str,
    /// What it does, on a line.
    pub(crate) about: &'static str,
    /// What the long help begins with; if there is none, it is that line.
    pub(crate) long_about: Option<&'static str>,
    /// What the help ends with.
    pub(crate) example: Option<&'static str>,
    /// Its usage if it takes a stimulus, which is read or random: that names both after the
    /// circuits.
    pub(crate) stimulus_usage: Option<&'static str>,
    /// Its arguments, in the order of its help.
    pub(crate) arguments: &'static [Argument],
}

/// How many commands there are.
pub(crate) const COUNT: usize = 16;

/// The program, as far as it is described as a command is.
pub(crate) const PROGRAM: Subcommand = Subcommand {
    name: "fretime",
    about: texts::ABOUT,
    long_about: Some(texts::LONG_ABOUT),
    example: Some(texts::EXAMPLE),
    stimulus_usage: None,
    arguments: &[],
};

/// Returns the command with this number that moves the latches of a circuit.
fn moving(number: usize) -> Subcommand {
    match number {
        0 => Subcommand {
            name: "retime",
            about: texts::RETIME_ABOUT,
            long_about: Some(texts::RETIME_LONG_ABOUT),
            example: Some(texts::RETIME_EXAMPLE),
            stimulus_usage: None,
            arguments: arguments::RETIME,
        },
        1 => Subcommand {
            name: "backward",
            about: texts::BACKWARD_ABOUT,
            long_about: Some(texts::BACKWARD_LONG_ABOUT),
            example: Some(texts::BACKWARD_EXAMPLE),
            stimulus_usage: None,
            arguments: arguments::BACKWARD,
        },
        _ => Subcommand {
            name: "enables",
            about: texts::ENABLES_ABOUT,
            long_about: Some(texts::ENABLES_LONG_ABOUT),
            example: Some(texts::ENABLES_EXAMPLE),
            stimulus_usage: None,
            arguments: arguments::ENABLES,
        },
    }
}

/// Returns the command with this number that makes circuits otherwise.
fn making(number: usize) -> Subcommand {
    match number {
        3 => Subcommand {
            name: "batch",
            about: texts::BATCH_ABOUT,
            long_about: Some(texts::BATCH_LONG_ABOUT),
            example: Some(texts::BATCH_EXAMPLE),
            stimulus_usage: None,
            arguments: arguments::BATCH,
        },
        _ => Subcommand {
            name: "convert",
            about: texts::CONVERT_ABOUT,
            long_about: None,
            example: None,
            stimulus_usage: None,
            arguments: arguments::CONVERT,
        },
    }
}

/// Returns the command with this number that looks at circuits.
fn looking(number: usize) -> Subcommand {
    match number {
        5 => Subcommand {
            name: "stat",
            about: texts::STAT_ABOUT,
            long_about: None,
            example: Some(texts::STAT_EXAMPLE),
            stimulus_usage: None,
            arguments: arguments::STAT,
        },
        6 => Subcommand {
            name: "sim",
            about: texts::SIM_ABOUT,
            long_about: None,
            example: Some(texts::SIM_EXAMPLE),
            stimulus_usage: Some("fretime sim [OPTIONS] <IN> <STIM|--random <n>>"),
            arguments: arguments::SIM,
        },
        7 => Subcommand {
            name: "same",
            about: texts::SAME_ABOUT,
            long_about: None,
            example: Some(texts::SAME_EXAMPLE),
            stimulus_usage: Some("fretime same [OPTIONS] <A> <B> <STIM|--random <n>>"),
            arguments: arguments::SAME,
        },
        _ => Subcommand {
            name: "dot",
            about: texts::DOT_ABOUT,
            long_about: Some(texts::DOT_LONG_ABOUT),
            example: Some(texts::DOT_EXAMPLE),
            stimulus_usage: None,
            arguments: arguments::DOT,
        },
    }
}

/// Returns the command with this number that explains a fault, or checks.
fn checking(number: usize) -> Subcommand {
    match number {
        9 => Subcommand {
            name: "explain",
            about: texts::EXPLAIN_ABOUT,
            long_about: Some(texts::EXPLAIN_LONG_ABOUT),
            example: Some(texts::EXPLAIN_EXAMPLE),
            stimulus_usage: None,
            arguments: arguments::EXPLAIN,
        },
        10 => Subcommand {
            name: "verify",
            about: texts::VERIFY_ABOUT,
            long_about: Some(texts::VERIFY_LONG_ABOUT),
            example: Some(texts::VERIFY_EXAMPLE),
            stimulus_usage: None,
            arguments: arguments::VERIFY,
        },
        11 => Subcommand {
            name: "check",
            about: texts::CHECK_ABOUT,
            long_about: Some(texts::CHECK_LONG_ABOUT),
            example: Some(texts::CHECK_EXAMPLE),
            stimulus_usage: None,
            arguments: arguments::CHECK,
        },
        _ => Subcommand {
            name: "miter",
            about: texts::MITER_ABOUT,
            long_about: Some(texts::MITER_LONG_ABOUT),
            example: Some(texts::MITER_EXAMPLE),
            stimulus_usage: None,
            arguments: arguments::MITER,
        },
    }
}

/// Returns the command with this number that writes for model checkers, or carries back what they
/// say.
fn carrying(number: usize) -> Subcommand {
    match number {
        13 => Subcommand {
            name: "product",
            about: texts::PRODUCT_ABOUT,
            long_about: Some(texts::PRODUCT_LONG_ABOUT),
            example: Some(texts::PRODUCT_EXAMPLE),
            stimulus_usage: None,
            arguments: arguments::PRODUCT,
        },
        14 => Subcommand {
            name: "lift",
            about: texts::LIFT_ABOUT,
            long_about: Some(texts::LIFT_LONG_ABOUT),
            example: Some(texts::LIFT_EXAMPLE),
            stimulus_usage: None,
            arguments: arguments::LIFT,
        },
        _ => Subcommand {
            name: "witness",
            about: texts::WITNESS_ABOUT,
            long_about: Some(texts::WITNESS_LONG_ABOUT),
            example: Some(texts::WITNESS_EXAMPLE),
            stimulus_usage: None,
            arguments: arguments::WITNESS,
        },
    }
}

/// Returns the command with this number, from 0 on; with one past the last, the last.
pub(crate) fn subcommand_at(number: usize) -> Subcommand {
    if number < 3 {
        moving(number)
    } else if number < 5 {
        making(number)
    } else if number < 9 {
        looking(number)
    } else if number < 13 {
        checking(number)
    } else {
        carrying(number)
    }
}
