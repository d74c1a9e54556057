//! The files that a task reads and writes, each asked for.
ghost use Rattle.std.specs.Prelude.{◌≡◌, ◌++◌, [], ◌∷◌, IfOk, None, OnOk, Some, if◌then◌else◌, map};
ghost use Rattle.file_identities.specs.FileUses.{given, name_file};
ghost use Rattle.file_identities.specs.FileUses as wanted;

use crate::file_use::{Argument, FileUse, Place, Role};
use crate::identity::{Asked, ask};
use command_line::{
    Asking, Carrying, Checking, Comparison, Lifting, Moving, Retiming, Shown, Stimuli, Task,
    Verification,
};
use counted_io::{Source, Target};
use std::alloc::{AllocError, Global};
use std::rt::Files;

fn place_of_source(source: Source<'_>) -> Place<'_>
    ensures { result ≡ wanted.place_of_source source.entry }
{
    match source {
        Source::Stdin => Place::Stdin,
        Source::File(path) => Place::File(path),
    }
}

fn place_of_target(target: Target<'_>) -> Place<'_>
    ensures { result ≡ wanted.place_of_target target.entry }
{
    match target {
        Target::Stdout => Place::Stdout,
        Target::File(path) => Place::File(path),
    }
}

/// Returns a file that is read.
pub(crate) fn reading(argument: Argument, source: Source<'_>) -> FileUse<'_>
    ensures { result ≡ wanted.reading argument source.entry }
{
    FileUse {
        argument,
        role: Role::Read,
        place: place_of_source(source),
    }
}

/// Returns the circuit that what is written is made of, whose place that may take.
fn original(argument: Argument, source: Source<'_>) -> FileUse<'_>
    ensures { result ≡ wanted.original argument source.entry }
{
    FileUse {
        argument,
        role: Role::Original,
        place: place_of_source(source),
    }
}

/// Returns a circuit that is made of another one.
fn remade(argument: Argument, target: Target<'_>) -> FileUse<'_>
    ensures { result ≡ wanted.remade argument target.entry }
{
    FileUse {
        argument,
        role: Role::Remade,
        place: place_of_target(target),
    }
}

/// Returns a file that is written, and takes the place of nothing.
fn writing(argument: Argument, target: Target<'_>) -> FileUse<'_>
    ensures { result ≡ wanted.writing argument target.entry }
{
    FileUse {
        argument,
        role: Role::Written,
        place: place_of_target(target),
    }
}

/// Returns a file that is written if it is asked for.
fn writing_if_asked(argument: Argument, target: Option<Target<'_>>) -> Option<FileUse<'_>>
    ensures { result ≡ wanted.writing_if_asked argument target.entry }
{
    match target {
        Some(target) => Some(writing(argument, target)),
        None => None,
    }
}

/// Returns a file that is read if it is asked for.
fn reading_if_asked(argument: Argument, source: Option<Source<'_>>) -> Option<FileUse<'_>>
    ensures { result ≡ wanted.reading_if_asked argument source.entry }
{
    match source {
        Some(source) => Some(reading(argument, source)),
        None => None,
    }
}

/// Returns lines that are printed.
fn lines_at<'a>(argument: Argument, place: Place<'a>) -> FileUse<'a>
    ensures { result ≡ wanted.lines_at argument place.entry }
{
    FileUse {
        argument,
        role: Role::Lines,
        place,
    }
}

/// Returns what is printed on standard output.
pub(crate) fn printed<'a>() -> FileUse<'a>
    ensures { result ≡ wanted.printed_use }
{
    lines_at(Argument::Printed, Place::Stdout)
}

/// Returns the lines of a run: on standard error, if standard output is given a file.
fn printed_beside<'a>(is_aside: bool) -> FileUse<'a>
    ensures { result ≡ wanted.printed_beside is_aside }
{
    let place = if is_aside {
        Place::Stderr
    } else {
        Place::Stdout
    };
    lines_at(Argument::Printed, place)
}

/// Returns the lines of `--progress`.
fn progress_of<'a>(shown: Shown) -> Option<FileUse<'a>>
    ensures { result ≡ wanted.progress_of shown }
{
    match shown {
        Shown::EachFrame => Some(lines_at(Argument::Progress, Place::Stderr)),
        Shown::OnTerminal | Shown::Nothing => None,
    }
}

/// Returns the line that two circuits can't be compared.
fn shapes<'a>() -> FileUse<'a>
    ensures { result ≡ wanted.shapes_use }
{
    FileUse {
        argument: Argument::Printed,
        role: Role::LineInstead,
        place: Place::Stdout,
    }
}

/// Returns a stimulus, if one is read.
fn stimulus_of<'a>(stimuli: Stimuli<'a>) -> Option<FileUse<'a>>
    ensures { result ≡ wanted.stimulus_of stimuli.entry }
{
    match stimuli {
        Stimuli::Read(source) => Some(reading(Argument::Stim, source)),
        Stimuli::Random(_) => None,
    }
}

pub(crate) fn push<'a, R: Files>(
    rt: &R,
    alloc: Global,
    file: FileUse<'a>,
    files: &mut Vec<Asked<'a>>,
) -> Result<(), AllocError>
    ensures { OnOk result (map (λ asked. asked.file) files.new.items
        ≡ map (λ asked. asked.file) files.old.items ++ file.entry ∷ []) }
{
    match ask(rt, alloc, file) {
        Ok(asked) => {
            files.push(asked)?;
            Ok(())
        }
        Err(error) => Err(error),
    }
}

/// Asks for those of these files that there are.
fn ask_all<'a, R: Files>(
    rt: &R,
    alloc: Global,
    uses: &[Option<FileUse<'a>>],
) -> Result<Vec<Asked<'a>>, AllocError>
    ensures { IfOk result (λ files. map (λ asked. asked.file) files.items ≡ given uses.now) }
{
    let mut files = Vec::new(alloc);
    for file in uses {
        if let Some(file) = file {
            push(rt, alloc, *file, &mut files)?;
        }
    }
    Ok(files)
}

/// Files of a task, each of which may be absent.
type Uses<'a> = [Option<FileUse<'a>>; 5];

/// Returns one file.
fn one(file: FileUse<'_>) -> Uses<'_>
    ensures { result ≡ Some file.entry ∷ None ∷ None ∷ None ∷ None ∷ [] }
{
    [Some(file), None, None, None, None]
}

/// Returns a file, and one that may be absent.
fn two<'a>(first: FileUse<'a>, second: Option<FileUse<'a>>) -> Uses<'a>
    ensures { result ≡ Some first.entry ∷ second.entry ∷ None ∷ None ∷ None ∷ [] }
{
    [Some(first), second, None, None, None]
}

/// Returns two files, and one that may be absent.
fn three<'a>(first: FileUse<'a>, second: FileUse<'a>, third: Option<FileUse<'a>>) -> Uses<'a>
    ensures { result ≡ Some first.entry ∷ Some second.entry ∷ third.entry ∷ None ∷ None ∷ [] }
{
    [Some(first), Some(second), third, None, None]
}

fn read_by_asking<'a>(asking: &Asking<'a>) -> Uses<'a>
    ensures { given result ≡ wanted.read_by_asking asking.now }
{
    three(
        reading(Argument::In, asking.input),
        reading(Argument::Out, asking.retimed),
        Some(original(Argument::Map, asking.map)),
    )
}

fn read_by_lifting<'a>(lifting: &Lifting<'a>) -> Uses<'a>
    ensures { given result ≡ wanted.read_by_lifting lifting.now }
{
    [
        Some(reading(Argument::In, lifting.input)),
        Some(reading(Argument::Out, lifting.retimed)),
        Some(reading(Argument::Map, lifting.map)),
        Some(original(Argument::WitnessFile, lifting.witness)),
        None,
    ]
}

fn read_by_comparison<'a>(comparison: &Comparison<'a>) -> Uses<'a>
    ensures { given result ≡ wanted.read_by_comparison comparison.now }
{
    [
        Some(reading(Argument::First, comparison.first)),
        Some(reading(Argument::Second, comparison.second)),
        stimulus_of(comparison.stimuli),
        reading_if_asked(Argument::Kept, comparison.kept),
        None,
    ]
}

fn read_by_verification<'a>(verification: &Verification<'a>) -> Uses<'a>
    ensures { given result ≡ wanted.read_by_verification verification.now }
{
    three(
        reading(Argument::In, verification.input),
        reading(Argument::Certificates, verification.certificates),
        reading_if_asked(Argument::OutOption, verification.retimed),
    )
}

fn read_by_checking<'a>(checking: &Checking<'a>) -> Uses<'a>
    ensures { given result ≡ wanted.read_by_checking checking.now }
{
    [
        Some(reading(Argument::In, checking.input)),
        Some(reading(Argument::Out, checking.retimed)),
        reading_if_asked(Argument::Map, checking.map),
        reading_if_asked(Argument::Kept, checking.kept),
        None,
    ]
}

fn read_by_carrying<'a>(carrying: &Carrying<'a>) -> Uses<'a>
    ensures { given result ≡ wanted.read_by_carrying carrying.now }
{
    three(
        reading(Argument::In, carrying.input),
        reading(Argument::Out, carrying.retimed),
        Some(reading(Argument::Witness, carrying.witness)),
    )
}

fn written_by_retiming<'a>(retiming: &Retiming<'a>) -> Uses<'a>
    ensures { given result ≡ wanted.written_by_retiming retiming.now }
{
    [
        Some(remade(Argument::Out, retiming.output)),
        writing_if_asked(Argument::MapOption, retiming.map),
        writing_if_asked(Argument::Cert, retiming.certificates),
        Some(printed_beside(retiming.takes_stdout())),
        progress_of(retiming.shown),
    ]
}

fn written_by_moving<'a>(moving: &Moving<'a>) -> Uses<'a>
    ensures { given result ≡ wanted.written_by_moving moving.now }
{
    [
        Some(remade(Argument::Out, moving.output)),
        writing_if_asked(Argument::MapOption, moving.map),
        Some(printed_beside(moving.takes_stdout())),
        progress_of(moving.shown),
        None,
    ]
}

/// Returns a circuit that is made of others, a certificate of it, and the line in place of both.
fn made<'a>(circuit: FileUse<'a>, certificate: Option<FileUse<'a>>) -> Uses<'a>
    ensures { result ≡ Some circuit.entry ∷ certificate.entry ∷ Some wanted.shapes_use
        ∷ None ∷ None ∷ [] }
{
    [Some(circuit), certificate, Some(shapes()), None, None]
}

/// Returns the files that a task writes, none of which is asked for yet.
fn uses_written<'a>(task: &Task<'a>) -> Uses<'a>
    ensures { given result ≡ wanted.written_by task.now }
{
    match task {
        Task::Retime(retiming) => written_by_retiming(retiming),
        Task::Move(moving) => written_by_moving(moving),
        Task::Convert(_, output, _) => one(remade(Argument::Out, *output)),
        Task::Sim(simulation) => {
            two(printed(), writing_if_asked(Argument::Vcd, simulation.waves))
        }
        Task::Miter(asking) => {
            made(
                remade(Argument::MiterFile, asking.output),
                writing_if_asked(Argument::Certificate, asking.certificate),
            )
        }
        Task::Product(asking) => {
            made(
                remade(Argument::ModelFile, asking.output),
                writing_if_asked(Argument::CertificateFile, asking.certificate),
            )
        }
        Task::Lift(lifting) => made(remade(Argument::ResultFile, lifting.output), None),
        Task::Dot(drawing) => one(writing(Argument::Out, drawing.output)),
        Task::Batch(_)
        | Task::Stat(_)
        | Task::Same(_)
        | Task::Verify(_)
        | Task::Check(_)
        | Task::Witness(_) => one(printed()),
        Task::Explain(_) => [None, None, None, None, None],
    }
}

/// Returns what a task writes.
pub(crate) fn written_by<'a, R: Files>(
    rt: &R,
    alloc: Global,
    task: &Task<'a>,
) -> Result<Vec<Asked<'a>>, AllocError>
    ensures { IfOk result (λ files. map (λ asked. asked.file) files.items
        ≡ wanted.written_by task.now) }
{
    ask_all(rt, alloc, &uses_written(task))
}

/// Returns the files that a task reads beside files of names, none of which is asked for yet.
fn uses_read<'a>(task: &Task<'a>) -> Uses<'a>
    ensures { given result ≡ wanted.others_read_by task.now }
{
    match task {
        Task::Retime(retiming) => {
            two(
                original(Argument::In, retiming.input),
                reading_if_asked(Argument::Classes, retiming.classes),
            )
        }
        Task::Move(moving) => one(original(Argument::In, moving.input)),
        Task::Batch(batch) => one(reading(Argument::List, batch.list)),
        Task::Stat(counting) => one(reading(Argument::In, counting.input)),
        Task::Convert(input, _, _) => one(original(Argument::In, *input)),
        Task::Sim(simulation) => {
            two(
                reading(Argument::In, simulation.input),
                stimulus_of(simulation.stimuli),
            )
        }
        Task::Same(comparison) => read_by_comparison(comparison),
        Task::Verify(verification) => read_by_verification(verification),
        Task::Check(checking) => read_by_checking(checking),
        Task::Miter(asking) => read_by_asking(asking),
        Task::Product(asking) => read_by_asking(asking),
        Task::Lift(lifting) => read_by_lifting(lifting),
        Task::Dot(drawing) => one(reading(Argument::In, drawing.input)),
        Task::Witness(carrying) => read_by_carrying(carrying),
        Task::Explain(_) => [None, None, None, None, None],
    }
}

fn push_name_files<'a, R: Files>(
    rt: &R,
    alloc: Global,
    names: &[Source<'a>],
    files: &mut Vec<Asked<'a>>,
) -> Result<(), AllocError>
    ensures { OnOk result (map (λ asked. asked.file) files.new.items
        ≡ map (λ asked. asked.file) files.old.items ++ map name_file names.now) }
{
    for source in names {
        push(rt, alloc, reading(Argument::KeepFrom, *source), files)?;
    }
    Ok(())
}

/// Returns what a task reads, and after it the files of names of the latches that it holds.
pub(crate) fn read_by<'a, R: Files>(
    rt: &R,
    alloc: Global,
    task: &Task<'a>,
) -> Result<Vec<Asked<'a>>, AllocError>
    ensures { IfOk result (λ files. map (λ asked. asked.file) files.items
        ≡ wanted.files_read_by task.now) }
{
    let mut files = ask_all(rt, alloc, &uses_read(task))?;
    match push_name_files(rt, alloc, task.name_files(), &mut files) {
        Ok(()) => Ok(files),
        Err(error) => {
            drop(files);
            Err(error)
        }
    }
}
