//! The outcomes of the files of a batch, each beside the path of the file that its circuit is
//! written to. A batch finishes its files by these pairs alone, so no circuit can go to the file of
//! another.
ghost use Rattle.std.specs.Prelude.{◌≡◌, All, IfErr, IfOk, OnOk, length};
ghost use Rattle.circuit_files.specs.WrittenFiles.{IsFileGiven};
ghost use Rattle.fretime.specs.Answers.{AreAnswersOf, FailsAt, IsOfOutput, IsWritten};

use batch_pool::Outcome;
use circuit_files::{Entry, Failure, OutputFiles, close, file_at};
use counted_io::write_all;
use std::alloc::{AllocError, Global};

/// What became of a file, and the path of the file that its circuit is written to.
#[derive(Clone, Copy, Drop)]
pub struct Answer<'a> {
    pub output: &'a str,
    pub outcome: &'a Outcome,
}

/// Returns each outcome beside the output of its entry.
pub fn answers_of<'a>(
    alloc: Global,
    entries: &'a [Entry<'a>],
    outcomes: &'a [Outcome],
) -> Result<Vec<Answer<'a>>, AllocError>
    requires { length outcomes.now ≡ length entries.now }
    ensures { IfOk result (λ answers. AreAnswersOf entries.now outcomes.now answers.items) }
{
    let mut answers = Vec::with_capacity(alloc, outcomes.len())?;
    for (k, outcome) in outcomes.iter().enumerate() {
        let output = entries[k].output;
        answers.push_reserved(Answer { output, outcome });
    }
    Ok(answers)
}

/// Writes the bytes to the file with this path, which is made at the first of them.
fn write_file<'a, R: OutputFiles>(rt: &R, path: &'a str, bytes: &[u8]) -> Result<(), Failure<'a>>
    ensures given { OnOk result (IsFileGiven R.Output.contents R.is_made R.is_let_go path.now
        bytes.now) }
    ensures err { IfErr result (FailsAt path.now) }
{
    let mut writer = file_at(rt, path);
    let written = write_all(&mut writer, bytes);
    close(writer);
    match written {
        Ok(()) => Ok(()),
        Err(_) => Err(Failure::Device(path)),
    }
}

/// Writes the circuit of a file that was retimed.
pub fn write_answer<'a, R: OutputFiles>(rt: &R, answer: &Answer<'a>) -> Result<(), Failure<'a>>
    ensures written { OnOk result
        (IsWritten (IsFileGiven R.Output.contents R.is_made R.is_let_go) answer.now) }
    ensures err { IfErr result (FailsAt answer.now.output.now) }
{
    match answer.outcome {
        Outcome::Done { bytes, .. } => write_file(rt, answer.output, bytes.as_slice()),
        Outcome::Refused(_)
        | Outcome::NoMemory
        | Outcome::NoSuchName(_)
        | Outcome::NoSuchLatch(_)
        | Outcome::Misread(_)
        | Outcome::NotShown(_) => Ok(()),
    }
}

/// Writes the circuits of all files that were retimed, in their order.
pub fn write_answers<'a, R: OutputFiles>(rt: &R, answers: &[Answer<'a>]) -> Result<(), Failure<'a>>
    ensures written { OnOk result
        (All (IsWritten (IsFileGiven R.Output.contents R.is_made R.is_let_go)) answers.now) }
    ensures err { IfErr result (IsOfOutput answers.now) }
{
    for answer in answers {
        write_answer(rt, answer)?;
    }
    Ok(())
}
