//! Standard input is read once, and standard output written once.
ghost use Rattle.std.specs.Prelude.{◌≡◌, ◌≤◌, IfNone};
ghost use Rattle.std.specs.List.{count_by};
ghost use Rattle.counted_io.specs.Streams.{is_stdin, is_stdout};
ghost use Rattle.command_line.specs.StreamUses.{UsesStreamsOnce, asking_targets, moving_targets, other_sources, retiming_targets, simulation_targets, sources_of, sources_of_checking, sources_of_comparison, sources_of_lifting, sources_of_retiming, sources_of_simulation, sources_of_verification, targets_of};
ghost use Rattle.command_line.specs.StreamUses as wanted;

use crate::task::{
    Asking, Checking, Comparison, Lifting, Moving, Retiming, Simulation, Stimuli, Task,
    Verification,
};
use counted_io::{Source, Target};

fn stdin_count(sources: &[Source<'_>]) -> usize
    ensures { result ≡ count_by is_stdin sources.now }
{
    sources.iter().filter(|source| source.is_stdin()).count()
}

fn stdout_count(targets: &[Target<'_>]) -> usize
    ensures { result ≡ count_by is_stdout targets.now }
{
    targets.iter().filter(|target| target.is_stdout()).count()
}

/// Counts which of the circuit and the stimulus are standard input.
fn stdin_uses_of_simulation(simulation: &Simulation<'_>) -> usize
    ensures { result ≡ count_by is_stdin (sources_of_simulation simulation.now) }
{
    match simulation.stimuli {
        Stimuli::Read(stimulus) => stdin_count(&[simulation.input, stimulus]),
        Stimuli::Random(_) => stdin_count(&[simulation.input]),
    }
}

/// Counts which of the circuits, the list and the stimulus are standard input.
fn stdin_uses_of_comparison(comparison: &Comparison<'_>) -> usize
    ensures { result ≡ count_by is_stdin (sources_of_comparison comparison.now) }
{
    let (first, second) = (comparison.first, comparison.second);
    match (comparison.kept, comparison.stimuli) {
        (Some(kept), Stimuli::Read(stimulus)) => stdin_count(&[first, second, kept, stimulus]),
        (Some(kept), Stimuli::Random(_)) => stdin_count(&[first, second, kept]),
        (None, Stimuli::Read(stimulus)) => stdin_count(&[first, second, stimulus]),
        (None, Stimuli::Random(_)) => stdin_count(&[first, second]),
    }
}

/// Counts those of the circuits, the map and the list that are standard input.
fn stdin_uses_of_checking(checking: &Checking<'_>) -> usize
    ensures { result ≡ count_by is_stdin (sources_of_checking checking.now) }
{
    let (input, retimed) = (checking.input, checking.retimed);
    match (checking.map, checking.kept) {
        (Some(map), Some(kept)) => stdin_count(&[input, retimed, map, kept]),
        (Some(map), None) => stdin_count(&[input, retimed, map]),
        (None, Some(kept)) => stdin_count(&[input, retimed, kept]),
        (None, None) => stdin_count(&[input, retimed]),
    }
}

/// Counts those of the circuits and the certificates that are standard input.
fn stdin_uses_of_verification(verification: &Verification<'_>) -> usize
    ensures { result ≡ count_by is_stdin (sources_of_verification verification.now) }
{
    let (input, certificates) = (verification.input, verification.certificates);
    match verification.retimed {
        Some(retimed) => stdin_count(&[input, certificates, retimed]),
        None => stdin_count(&[input, certificates]),
    }
}

/// Counts which of the circuit and the merged latches that are given are standard input.
fn stdin_uses_of_retiming(retiming: &Retiming<'_>) -> usize
    ensures { result ≡ count_by is_stdin (sources_of_retiming retiming.now) }
{
    match retiming.classes {
        Some(classes) => stdin_count(&[retiming.input, classes]),
        None => stdin_count(&[retiming.input]),
    }
}

/// Counts which of the circuits, the map and the witness circuit are standard input.
fn stdin_uses_of_lifting(lifting: &Lifting<'_>) -> usize
    ensures { result ≡ count_by is_stdin (sources_of_lifting lifting.now) }
{
    stdin_count(&[lifting.input, lifting.retimed, lifting.map, lifting.witness])
}

/// Counts which of the files that a task reads beside files of names are standard input.
fn other_stdin_uses(task: &Task<'_>) -> usize
    ensures { result ≡ count_by is_stdin (other_sources task.now) }
{
    match task {
        Task::Retime(retiming) => stdin_uses_of_retiming(retiming),
        Task::Move(moving) => stdin_count(&[moving.input]),
        Task::Batch(batch) => stdin_count(&[batch.list]),
        Task::Stat(counting) => stdin_count(&[counting.input]),
        Task::Convert(input, _, _) => stdin_count(&[*input]),
        Task::Sim(simulation) => stdin_uses_of_simulation(simulation),
        Task::Same(comparison) => stdin_uses_of_comparison(comparison),
        Task::Witness(carrying) => {
            stdin_count(&[carrying.input, carrying.retimed, carrying.witness])
        }
        Task::Verify(verification) => stdin_uses_of_verification(verification),
        Task::Check(checking) => stdin_uses_of_checking(checking),
        Task::Miter(asking) => stdin_count(&[asking.input, asking.retimed, asking.map]),
        Task::Product(asking) => stdin_count(&[asking.input, asking.retimed, asking.map]),
        Task::Lift(lifting) => stdin_uses_of_lifting(lifting),
        Task::Dot(drawing) => stdin_count(&[drawing.input]),
        Task::Explain(_) => 0,
    }
}

/// Counts which of the files that a task reads are standard input.
fn stdin_uses(task: &Task<'_>) -> usize
    ensures { result ≡ count_by is_stdin (sources_of task.now) }
{
    stdin_count(task.name_files()) + other_stdin_uses(task)
}

/// Counts which of the circuit, the map and the certificates go to standard output.
fn stdout_uses_of(retiming: &Retiming<'_>) -> usize
    ensures { result ≡ count_by is_stdout (retiming_targets retiming.now.output retiming.now.map
        retiming.now.certificates) }
{
    match (retiming.map, retiming.certificates) {
        (Some(map), Some(certificates)) => stdout_count(&[retiming.output, map, certificates]),
        (Some(map), None) => stdout_count(&[retiming.output, map]),
        (None, Some(certificates)) => stdout_count(&[retiming.output, certificates]),
        (None, None) => stdout_count(&[retiming.output]),
    }
}

/// Counts which of the circuit and the map go to standard output.
fn stdout_uses_of_moving(moving: &Moving<'_>) -> usize
    ensures { result ≡ count_by is_stdout (moving_targets moving.now) }
{
    match moving.map {
        Some(map) => stdout_count(&[moving.output, map]),
        None => stdout_count(&[moving.output]),
    }
}

/// Counts which of the trace and the waves go to standard output.
fn stdout_uses_of_simulation(simulation: &Simulation<'_>) -> usize
    ensures { result ≡ count_by is_stdout (simulation_targets simulation.now.waves) }
{
    match simulation.waves {
        Some(waves) => stdout_count(&[Target::Stdout, waves]),
        None => stdout_count(&[Target::Stdout]),
    }
}

/// Counts which of the miter and the certificate go to standard output.
fn stdout_uses_of_asking(asking: &Asking<'_>) -> usize
    ensures { result ≡ count_by is_stdout (asking_targets asking.now) }
{
    match asking.certificate {
        Some(certificate) => stdout_count(&[asking.output, certificate]),
        None => stdout_count(&[asking.output]),
    }
}

/// Counts which of the files that a task writes are standard output.
fn stdout_uses(task: &Task<'_>) -> usize
    ensures { result ≡ count_by is_stdout (targets_of task.now) }
{
    match task {
        Task::Retime(retiming) => stdout_uses_of(retiming),
        Task::Move(moving) => stdout_uses_of_moving(moving),
        Task::Convert(_, output, _) => stdout_count(&[*output]),
        Task::Dot(drawing) => stdout_count(&[drawing.output]),
        Task::Sim(simulation) => stdout_uses_of_simulation(simulation),
        Task::Miter(asking) => stdout_uses_of_asking(asking),
        Task::Product(asking) => stdout_uses_of_asking(asking),
        Task::Lift(lifting) => stdout_count(&[lifting.output]),
        Task::Batch(_)
        | Task::Stat(_)
        | Task::Same(_)
        | Task::Verify(_)
        | Task::Witness(_)
        | Task::Check(_)
        | Task::Explain(_) => 0,
    }
}

/// Returns the message about a task that writes standard output twice.
fn stdout_message(task: &Task<'_>) -> &'static str {
    match task {
        Task::Sim(_) => "standard output has the values: --vcd wants a file of its own",
        Task::Miter(_) => {
            "standard output is written once: '-' can stand for one of MITER and CERT only"
        }
        Task::Product(_) => {
            "standard output is written once: '-' can stand for one of MODEL and CERT only"
        }
        Task::Move(_) => {
            "standard output is written once: '-' can stand for one of OUT and MAP only"
        }
        _ => {
            "standard output is written once: '-' can stand for one of OUT, MAP and the file of certificates only"
        }
    }
}

/// Returns what is wrong if a task has more than one use for a standard stream.
pub(crate) fn stream_conflict(task: &Task<'_>) -> Option<&'static str>
    ensures { IfNone result (UsesStreamsOnce task.now) }
{
    if stdin_uses(task) > 1 {
        Some("standard input is read once: '-' can stand for one of these files only")
    } else if stdout_uses(task) > 1 {
        Some(stdout_message(task))
    } else {
        None
    }
}

/// Returns true if something that may be asked for is written to standard output.
fn writes_stdout(target: Option<Target<'_>>) -> bool
    ensures { result ≡ wanted.writes_stdout target.entry }
{
    match target {
        Some(target) => target.is_stdout(),
        None => false,
    }
}

impl<'a> Task<'a> {
    /// Returns the files of names of the latches that are held.
    pub fn name_files(&self) -> &[Source<'a>]
        ensures { result.now ≡ wanted.name_files self.now }
    {
        match self {
            Task::Retime(retiming) => retiming.options.keep_from.as_slice(),
            Task::Move(moving) => moving.options.keep_from.as_slice(),
            Task::Verify(verification) => verification.options.keep_from.as_slice(),
            Task::Dot(drawing) => drawing.options.keep_from.as_slice(),
            _ => &[],
        }
    }
}

impl<'a> Retiming<'a> {
    /// Returns true if a circuit, a map or certificates go to standard output. What is printed then
    /// goes to standard error.
    pub fn takes_stdout(&self) -> bool
        ensures { result ≡ wanted.takes_stdout self.now }
    {
        self.output.is_stdout() || writes_stdout(self.certificates) || writes_stdout(self.map)
    }
}

impl<'a> Moving<'a> {
    /// Returns true if a circuit or a map goes to standard output. What is printed then goes to
    /// standard error.
    pub fn takes_stdout(&self) -> bool
        ensures { result ≡ wanted.moving_takes_stdout self.now }
    {
        self.output.is_stdout() || writes_stdout(self.map)
    }
}
