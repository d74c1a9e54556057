//! The files that a task writes. Why one failed is asked for in another way than of a file that is
//! read.
use command_line::Task;
use counted_io::{Source, Target};

/// Returns true if a file with this path is written here.
fn is_to(target: Target<'_>, path: &str) -> bool {
    match target {
        Target::File(file) => file == path,
        Target::Stdout => false,
    }
}

fn is_to_some(target: Option<Target<'_>>, path: &str) -> bool {
    match target {
        Some(target) => is_to(target, path),
        None => false,
    }
}

/// Returns true if a file with this path is read here.
fn is_from(source: Source<'_>, path: &str) -> bool {
    match source {
        Source::File(file) => file == path,
        Source::Stdin => false,
    }
}

/// Returns true if the task writes a file with this path, and doesn't read it first.
pub(crate) fn is_written(task: &Task<'_>, path: &str) -> bool {
    match task {
        Task::Retime(retiming) => {
            let beside = is_to_some(retiming.certificates, path) | is_to_some(retiming.map, path);
            !is_from(retiming.input, path) & (is_to(retiming.output, path) | beside)
        }
        Task::Move(moving) => {
            let written = is_to(moving.output, path) | is_to_some(moving.map, path);
            !is_from(moving.input, path) & written
        }
        Task::Convert(input, output, _) => !is_from(*input, path) & is_to(*output, path),
        Task::Sim(simulation) => is_to_some(simulation.waves, path),
        Task::Miter(asking) | Task::Product(asking) => {
            let beside = is_to_some(asking.certificate, path);
            !is_from(asking.input, path) & (is_to(asking.output, path) | beside)
        }
        Task::Lift(lifting) => !is_from(lifting.input, path) & is_to(lifting.output, path),
        Task::Dot(drawing) => !is_from(drawing.input, path) & is_to(drawing.output, path),
        _ => false,
    }
}
