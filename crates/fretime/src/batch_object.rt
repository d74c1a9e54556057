//! The files of a batch as an object of JSON.
ghost use Rattle.std.specs.Prelude.{◌≡◌, ◌⊎◌, All, IfErr, IfOk, OnOk, true, fold, map};
ghost use Rattle.circuit_files.specs.Outcomes.{outcome_of};
ghost use Rattle.circuit_files.specs.WrittenFiles.{IsFileGiven};
ghost use Rattle.circuit_files.specs.declared.outcome.Outcome.TheVariants.{Device, Done, Memory};
ghost use Rattle.fretime.specs.Answers.{IsWritten, report_at};
ghost use Rattle.fretime.specs.Batches.{Printed};
ghost use Rattle.fretime.specs.Batches as wanted;

use crate::answers::{Answer, write_answers};
use crate::batch::{after, report_of};
use circuit_files::{Failure, Outcome, OutputFiles};
use command_endings::print_batch;
use counted_io::CountedWrite;
use reports::JobReport;
use std::alloc::{AllocError, Global};

/// Returns what is printed of the files.
fn reports_of(alloc: Global, answers: &[Answer<'_>]) -> Result<Vec<JobReport>, AllocError>
    ensures { IfOk result (λ reports. reports.items ≡ map report_at answers.now) }
{
    let mut reports = Vec::with_capacity(alloc, answers.len())?;
    for answer in answers {
        reports.push_reserved(report_of(answer.outcome));
    }
    Ok(reports)
}

/// Returns how the batch of these files ends.
fn end_of(reports: &[JobReport]) -> Outcome
    ensures { result ≡ fold wanted.after Done reports.now }
{
    let mut ended = Outcome::Done;
    for report in reports {
        ended = after(ended, *report);
    }
    ended
}

/// Prints the files of the reports as an object, and returns how the batch ends.
fn print_files<'a, O: CountedWrite>(
    alloc: Global,
    reports: &[JobReport],
    out: &mut O,
) -> Result<Outcome, Failure<'a>>
    ensures ok { IfOk result (λ ended. Printed true reports.now ended (O.output out.old)
        (O.output out.new)) }
    ensures err { IfErr result (λ failure. (outcome_of failure ≡ Device)
        ⊎ ((outcome_of failure ≡ Memory) × (O.output out.new ≡ O.output out.old))) }
{
    let ended = end_of(reports);
    print_batch(alloc, reports, ended, out)
}

/// Writes the circuits of all jobs in their order, then prints the files as an object, and returns
/// how the batch ends.
pub fn finish_as_object<'a, R: OutputFiles, O: CountedWrite>(
    rt: &R,
    alloc: Global,
    answers: &[Answer<'a>],
    out: &mut O,
) -> Result<Outcome, Failure<'a>>
    ensures ok { IfOk result (λ ended. Printed true (map report_at answers.now) ended
        (O.output out.old) (O.output out.new)) }
    ensures written { OnOk result
        (All (IsWritten (IsFileGiven R.Output.contents R.is_made R.is_let_go)) answers.now) }
    ensures err { IfErr result (λ failure. (outcome_of failure ≡ Device)
        ⊎ ((outcome_of failure ≡ Memory) × (O.output out.new ≡ O.output out.old))) }
{
    match write_answers(rt, answers) {
        Ok(()) => match reports_of(alloc, answers) {
            Ok(reports) => {
                let printed = print_files(alloc, reports.as_slice(), out);
                drop(reports);
                printed
            }
            Err(_) => Err(Failure::Memory),
        },
        Err(failure) => Err(failure),
    }
}
