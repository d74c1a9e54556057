//! From the matches of the command-line library to a task, each field of which is the value of an
//! argument.
ghost use Rattle.std.specs.Prelude.{◌≡◌, IfOk, IfSome, MatchOption, None, codes};
ghost use Rattle.clap.specs.Words.{first_value, found_of};
ghost use Rattle.command_line.specs.Asking.{AreMapped, AreSequences, AreStimuli, Asks, move_name};
ghost use Rattle.command_line.specs.StreamUses.{UsesStreamsOnce};

use crate::options::options;
use crate::refusing::command_error;
use crate::stream_uses::stream_conflict;
use crate::task::{
    Asking, Batch, Carrying, Checking, Comparison, Counting, Drawing, Lifting, MoveKind, Moving,
    Retiming, Sequences, Simulation, Stimuli, Task, Verification,
};
use crate::values::{
    depth, json, merge, number, shown, source, source_if_given, spelling, target, workers,
};
use clap::error::ErrorKind;
use clap::{ArgMatches, Command, Error};
use command_words::program_command;
use counted_io::Source;
use std::alloc::{AllocError, Global};

fn retiming<'a>(alloc: Global, matches: &ArgMatches<'a>) -> Result<Option<Task<'a>>, AllocError>
    ensures { IfOk result (λ found. IfSome found (Asks (codes "retime") matches.now)) }
{
    let (Some(input), Some(output)) = (source(matches, "IN"), target(matches, "OUT")) else {
        return Ok(None);
    };
    Ok(Some(Task::Retime(Retiming {
        input,
        output,
        options: options(alloc, matches)?,
        workers: workers(matches),
        classes: source_if_given(matches, "classes"),
        certificates: target(matches, "cert"),
        map: target(matches, "map"),
        json: json(matches),
        shown: shown(matches),
    })))
}

fn moving<'a>(
    alloc: Global,
    matches: &ArgMatches<'a>,
    kind: MoveKind,
) -> Result<Option<Task<'a>>, AllocError>
    ensures { IfOk result (λ found. IfSome found (Asks (move_name kind) matches.now)) }
{
    let (Some(input), Some(output)) = (source(matches, "IN"), target(matches, "OUT")) else {
        return Ok(None);
    };
    Ok(Some(Task::Move(Moving {
        kind,
        input,
        output,
        options: options(alloc, matches)?,
        map: target(matches, "map"),
        enables: matches.get_flag("enables"),
        shown: shown(matches),
        json: json(matches),
    })))
}

fn verification<'a>(alloc: Global, matches: &ArgMatches<'a>) -> Result<Option<Task<'a>>, AllocError>
    ensures { IfOk result (λ found. IfSome found (Asks (codes "verify") matches.now)) }
{
    let (Some(input), Some(certificates)) = (source(matches, "IN"), source(matches, "CERT")) else {
        return Ok(None);
    };
    Ok(Some(Task::Verify(Verification {
        input,
        certificates,
        retimed: source_if_given(matches, "out"),
        options: options(alloc, matches)?,
        json: json(matches),
    })))
}

fn drawing<'a>(alloc: Global, matches: &ArgMatches<'a>) -> Result<Option<Task<'a>>, AllocError>
    ensures { IfOk result (λ found. IfSome found (Asks (codes "dot") matches.now)) }
{
    let (Some(input), Some(output)) = (source(matches, "IN"), target(matches, "OUT")) else {
        return Ok(None);
    };
    Ok(Some(Task::Dot(Drawing {
        input,
        output,
        frame: matches.get_flag("frame"),
        options: options(alloc, matches)?,
        around: matches.get_str("around"),
        depth: depth(matches),
    })))
}

fn batch<'a>(alloc: Global, matches: &ArgMatches<'a>) -> Result<Option<Task<'a>>, AllocError>
    ensures { IfOk result (λ found. IfSome found (Asks (codes "batch") matches.now)) }
{
    let Some(list) = source(matches, "LIST") else {
        return Ok(None);
    };
    Ok(Some(Task::Batch(Batch {
        list,
        options: options(alloc, matches)?,
        workers: workers(matches),
        json: json(matches),
    })))
}

fn statistics<'a>(matches: &ArgMatches<'a>) -> Option<Task<'a>>
    ensures { IfSome result (Asks (codes "stat") matches.now) }
{
    let Some(input) = source(matches, "IN") else {
        return None;
    };
    Some(Task::Stat(Counting {
        input,
        merge: merge(matches),
        json: json(matches),
    }))
}

fn conversion<'a>(matches: &ArgMatches<'a>) -> Option<Task<'a>>
    ensures { IfSome result (Asks (codes "convert") matches.now) }
{
    let (Some(input), Some(output)) = (source(matches, "IN"), target(matches, "OUT")) else {
        return None;
    };
    Some(Task::Convert(input, output, spelling(matches)))
}

/// Returns the random sequences that are asked for, if any are.
fn sequences(matches: &ArgMatches<'_>) -> Option<Sequences>
    ensures { MatchOption result (first_value (found_of matches.now) (codes "random") ≡ None)
        (AreSequences matches.now) }
{
    let _given = matches.get_str("random")?;
    Some(Sequences {
        count: number(matches, "random", 1),
        steps: number(matches, "steps", 100),
        seed: number(matches, "seed", 0),
    })
}

/// Returns the stimulus that circuits are simulated under.
fn stimuli<'a>(matches: &ArgMatches<'a>) -> Option<Stimuli<'a>>
    ensures { IfSome result (AreStimuli matches.now) }
{
    match sequences(matches) {
        Some(sequences) => Some(Stimuli::Random(sequences)),
        None => match source(matches, "STIM") {
            Some(stimulus) => Some(Stimuli::Read(stimulus)),
            None => None,
        },
    }
}

fn simulation<'a>(matches: &ArgMatches<'a>) -> Option<Task<'a>>
    ensures { IfSome result (Asks (codes "sim") matches.now) }
{
    let (Some(input), Some(stimuli)) = (source(matches, "IN"), stimuli(matches)) else {
        return None;
    };
    Some(Task::Sim(Simulation {
        input,
        stimuli,
        waves: target(matches, "vcd"),
    }))
}

fn comparison<'a>(matches: &ArgMatches<'a>) -> Option<Task<'a>>
    ensures { IfSome result (Asks (codes "same") matches.now) }
{
    let (Some(first), Some(second), Some(stimuli)) = (
        source(matches, "A"),
        source(matches, "B"),
        stimuli(matches),
    ) else {
        return None;
    };
    Some(Task::Same(Comparison {
        first,
        second,
        kept: source_if_given(matches, "kept"),
        stimuli,
        json: json(matches),
    }))
}

fn witness<'a>(matches: &ArgMatches<'a>) -> Option<Task<'a>>
    ensures { IfSome result (Asks (codes "witness") matches.now) }
{
    let (Some(input), Some(retimed), Some(witness)) = (
        source(matches, "IN"),
        source(matches, "OUT"),
        source(matches, "WITNESS"),
    ) else {
        return None;
    };
    Some(Task::Witness(Carrying {
        input,
        retimed,
        witness,
        merge: merge(matches),
    }))
}

/// Returns two circuits and the map of the states of the one to those of the other.
fn mapped<'a>(matches: &ArgMatches<'a>) -> Option<(Source<'a>, Source<'a>, Source<'a>)>
    ensures { IfSome result (AreMapped matches.now) }
{
    let (Some(input), Some(retimed), Some(map)) = (
        source(matches, "IN"),
        source(matches, "OUT"),
        source(matches, "MAP"),
    ) else {
        return None;
    };
    Some((input, retimed, map))
}

fn check<'a>(matches: &ArgMatches<'a>) -> Option<Task<'a>>
    ensures { IfSome result (Asks (codes "check") matches.now) }
{
    let (Some(input), Some(retimed)) = (source(matches, "IN"), source(matches, "OUT")) else {
        return None;
    };
    Some(Task::Check(Checking {
        input,
        retimed,
        map: source_if_given(matches, "MAP"),
        kept: source_if_given(matches, "kept"),
    }))
}

fn miter<'a>(matches: &ArgMatches<'a>) -> Option<Task<'a>>
    ensures { IfSome result (Asks (codes "miter") matches.now) }
{
    let (Some((input, retimed, map)), Some(output)) = (mapped(matches), target(matches, "MITER"))
    else {
        return None;
    };
    Some(Task::Miter(Asking {
        input,
        retimed,
        map,
        output,
        certificate: target(matches, "certificate"),
        spelling: spelling(matches),
    }))
}

fn product<'a>(matches: &ArgMatches<'a>) -> Option<Task<'a>>
    ensures { IfSome result (Asks (codes "product") matches.now) }
{
    let (Some((input, retimed, map)), Some(output), Some(certificate)) = (
        mapped(matches),
        target(matches, "MODEL"),
        target(matches, "CERT"),
    ) else {
        return None;
    };
    Some(Task::Product(Asking {
        input,
        retimed,
        map,
        output,
        certificate: Some(certificate),
        spelling: spelling(matches),
    }))
}

fn lifting<'a>(matches: &ArgMatches<'a>) -> Option<Task<'a>>
    ensures { IfSome result (Asks (codes "lift") matches.now) }
{
    let (Some((input, retimed, map)), Some(witness), Some(output)) = (
        mapped(matches),
        source(matches, "CERT"),
        target(matches, "RESULT"),
    ) else {
        return None;
    };
    Some(Task::Lift(Lifting {
        input,
        retimed,
        map,
        witness,
        output,
        spelling: spelling(matches),
        back: matches.get_flag("back"),
    }))
}

fn explanation<'a>(matches: &ArgMatches<'a>) -> Option<Task<'a>>
    ensures { IfSome result (Asks (codes "explain") matches.now) }
{
    match matches.get_str("FAULT") {
        Some(name) => Some(Task::Explain(name)),
        None => None,
    }
}

/// Returns what the matches of a subcommand ask for, if it moves no latches.
fn task_without_options<'a>(name: &str, matches: &ArgMatches<'a>) -> Option<Task<'a>>
    ensures { IfSome result (Asks name.now matches.now) }
{
    match name {
        "stat" => statistics(matches),
        "convert" => conversion(matches),
        "sim" => simulation(matches),
        "same" => comparison(matches),
        "witness" => witness(matches),
        "check" => check(matches),
        "miter" => miter(matches),
        "product" => product(matches),
        "lift" => lifting(matches),
        "explain" => explanation(matches),
        _ => None,
    }
}

/// Returns what the matches of a subcommand ask for.
fn task<'a>(
    alloc: Global,
    name: &str,
    matches: &ArgMatches<'a>,
) -> Result<Option<Task<'a>>, AllocError>
    ensures { IfOk result (λ found. IfSome found (Asks name.now matches.now)) }
{
    match name {
        "retime" => retiming(alloc, matches),
        "backward" => moving(alloc, matches, MoveKind::Backward),
        "enables" => moving(alloc, matches, MoveKind::Enables),
        "verify" => verification(alloc, matches),
        "batch" => batch(alloc, matches),
        "dot" => drawing(alloc, matches),
        _ => Ok(task_without_options(name, matches)),
    }
}

/// Returns what the matches of a whole command line ask for, or `None` if they name no command.
fn task_of<'a>(alloc: Global, matches: &ArgMatches<'a>) -> Result<Option<Task<'a>>, AllocError> {
    match matches.subcommand() {
        Some((name, matches)) => task(alloc, name, matches),
        None => Ok(None),
    }
}

/// Returns what was asked, with a refusal of memory as an error of a command line.
fn or_error<'a>(asked: Result<Option<Task<'a>>, AllocError>) -> Result<Option<Task<'a>>, Error> {
    match asked {
        Ok(task) => Ok(task),
        Err(error) => Err(Error::from(error)),
    }
}

/// Returns what the command-line arguments ask a program for.
fn asked_of<'a>(
    alloc: Global,
    program: &mut Command<'a>,
    words: &'a [String],
) -> Result<Option<Task<'a>>, Error> {
    match program.try_get_matches_from_mut(words) {
        Ok(matches) => {
            let task = task_of(alloc, &matches);
            drop(matches);
            or_error(task)
        }
        Err(error) => Err(error),
    }
}

/// Returns the task if it has one use at most for each standard stream, else what is wrong.
fn with_streams_once<'a>(alloc: Global, task: Task<'a>) -> Result<Task<'a>, Error>
    ensures { IfOk result UsesStreamsOnce }
{
    match stream_conflict(&task) {
        None => Ok(task),
        Some(message) => {
            let name = task.command();
            drop(task);
            Err(command_error(alloc, name, ErrorKind::ArgumentConflict, message))
        }
    }
}

/// Returns what the command-line arguments ask a program for. To ask for nothing is an error.
fn task_asked_of<'a>(
    alloc: Global,
    program: &mut Command<'a>,
    words: &'a [String],
) -> Result<Task<'a>, Error>
    ensures { IfOk result UsesStreamsOnce }
{
    match asked_of(alloc, program, words) {
        Ok(Some(task)) => with_streams_once(alloc, task),
        Ok(None) => {
            let message = "there is nothing to do";
            Err(command_error(alloc, "", ErrorKind::MissingSubcommand, message))
        }
        Err(error) => Err(error),
    }
}

/// Returns what the command-line arguments ask for, the program's name first.
///
/// # Errors
///
/// They ask for help or the version, or are no command of the program. They read or write a
/// standard stream twice, or there is no memory.
pub fn parse_arguments<'a>(alloc: Global, words: &'a [String]) -> Result<Task<'a>, Error>
    ensures { IfOk result UsesStreamsOnce }
{
    let mut program = program_command(alloc)?;
    let asked = task_asked_of(alloc, &mut program, words);
    drop(program);
    asked
}
