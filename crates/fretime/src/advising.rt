//! What a terminal is told if a command did its work, and what it found may be due to how it was
//! called.
use circuit_files::{Fault, Outcome, tell_page, tell_spelling};
use command_line::{Shown, Task, Verification};
use counted_io::{Buffered, CountedWrite, Target};
use file_words::Spelling;
use frame_runs::PathBound;
use std::rt::Files;

/// Returns the options of `retime` that bear on certificates and that 'verify' wasn't given, or
/// `None` if it has all of them.
fn missing_options(task: &Verification<'_>) -> Option<&'static [u8]> {
    let options = &task.options;
    let holds = !options.keep.as_slice().is_empty() | !options.keep_latches.as_slice().is_empty();
    let is_bounded = options.bound != PathBound::None;
    match (holds, options.merge, is_bounded) {
        (true, true, true) => None,
        (true, true, false) => Some(b"--levels or --no-longer"),
        (true, false, true) => Some(b"--merge"),
        (true, false, false) => Some(b"--merge, --levels or --no-longer"),
        (false, true, true) => Some(b"--keep or --keep-latch"),
        (false, true, false) => Some(b"--keep, --keep-latch, --levels or --no-longer"),
        (false, false, true) => Some(b"--keep, --keep-latch or --merge"),
        (false, false, false) => Some(b"--keep, --keep-latch, --merge, --levels or --no-longer"),
    }
}

/// Says which options may be missing if a certificate is rejected.
fn tell_missing<E: CountedWrite>(task: &Verification<'_>, err: &mut E) {
    if let Some(options) = missing_options(task) {
        let mut out = Buffered::new(err);
        out.put(b"where 'retime' got ");
        out.put(options);
        out.put(b", 'verify' needs the same\n");
        let _ = out.flush();
    }
}

/// Returns the file of a circuit whose spelling wasn't chosen.
fn unchosen<'a>(output: Target<'a>, spelling: Option<Spelling>) -> Option<&'a str> {
    match (output, spelling) {
        (Target::File(path), None) => Some(path),
        _ => None,
    }
}

/// Returns true if a run of frames tells more than its lines.
fn tells(shown: Shown, json: bool) -> bool {
    shown != Shown::Nothing && !json
}

/// Returns the file of the circuit that a task writes, if its spelling wasn't chosen, and neither
/// quiet nor an object was asked for.
fn unchosen_of<'a>(task: &Task<'a>) -> Option<&'a str> {
    match task {
        Task::Retime(retiming) => {
            if tells(retiming.shown, retiming.json) {
                unchosen(retiming.output, retiming.options.spelling)
            } else {
                None
            }
        }
        Task::Move(moving) => {
            if tells(moving.shown, moving.json) {
                unchosen(moving.output, moving.options.spelling)
            } else {
                None
            }
        }
        Task::Convert(_, output, spelling) => unchosen(*output, *spelling),
        Task::Miter(asking) => unchosen(asking.output, asking.spelling),
        Task::Product(asking) => unchosen(asking.output, asking.spelling),
        Task::Lift(lifting) => unchosen(lifting.output, lifting.spelling),
        _ => None,
    }
}

/// Says on a terminal what may help. A failed write changes nothing.
pub(crate) fn advise<R: Files, E: CountedWrite>(
    rt: &R,
    task: &Task<'_>,
    outcome: Outcome,
    is_terminal: bool,
    err: &mut E,
) {
    if !is_terminal {
        return;
    }
    match outcome {
        Outcome::ShapesDiffer => tell_page(Fault::ShapesDiffer, err),
        Outcome::Unconfirmed => {
            if let Task::Verify(verification) = task {
                tell_missing(verification, err);
            }
        }
        Outcome::Done => {
            if let Some(path) = unchosen_of(task) {
                tell_spelling(rt, path, err);
            }
        }
        _ => {}
    }
}
