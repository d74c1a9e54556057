//! The files of a batch.
ghost use Rattle.std.specs.Prelude.{◌≡◌, IfOk};
ghost use Rattle.serde_json.specs.View.{view};
ghost use Rattle.json_reports.specs.Batches.{batch_data, file_data, job_data, latches_data};
ghost use Rattle.json_reports.specs.Faults.{fault_data};
ghost use Rattle.json_reports.specs.Members.{array_of};
ghost use Rattle.serde_json.specs.Data.{null};

use crate::fault::{Fault, fault_object};
use crate::members::{Scalar, object_with, scalars_object};
use file_words::ReadError;
use reports::JobReport;
use serde_json::Value;
use std::alloc::{AllocError, Global};

/// Returns the numbers of all latches before and after.
fn latches_object(alloc: Global, before: u32, after: u32) -> Result<Value, AllocError>
    ensures { IfOk result (λ v. view v ≡ latches_data before after) }
{
    scalars_object(
        alloc,
        &[
            ("after", Scalar::Count(u64::from(after))),
            ("before", Scalar::Count(u64::from(before))),
        ],
    )
}

/// Returns the object of a file that was retimed, from `before` latches to `after`.
fn done_object(alloc: Global, before: u32, after: u32) -> Result<Value, AllocError>
    ensures { IfOk result (λ v. view v ≡ file_data null (latches_data before after)) }
{
    let latches = latches_object(alloc, before, after)?;
    object_with(alloc, "latches", latches, &[("fault", Scalar::Null)])
}

fn refused_object(alloc: Global, fault: Fault) -> Result<Value, AllocError>
    ensures { IfOk result (λ v. view v ≡ file_data (fault_data fault) null) }
{
    let fault = fault_object(alloc, fault)?;
    object_with(alloc, "fault", fault, &[("latches", Scalar::Null)])
}

fn job_object(alloc: Global, report: JobReport) -> Result<Value, AllocError>
    ensures { IfOk result (λ v. view v ≡ job_data report) }
{
    match report {
        JobReport::Done(before, after) => done_object(alloc, before, after),
        JobReport::Refused(fault) => refused_object(alloc, Fault::Circuit(fault)),
        JobReport::NoMemory => refused_object(alloc, Fault::Circuit(ReadError::NoMemory)),
        JobReport::NoSuchName => refused_object(alloc, Fault::NoSuchName),
        JobReport::NoSuchLatch => refused_object(alloc, Fault::NoSuchLatch),
        JobReport::Misread => refused_object(alloc, Fault::Misread),
        JobReport::NotShown => refused_object(alloc, Fault::NotShown),
    }
}

fn jobs_array(alloc: Global, reports: &[JobReport]) -> Result<Value, AllocError>
    ensures { IfOk result (λ v. view v ≡ array_of job_data reports.now) }
{
    let mut list = Vec::new(alloc);
    for report in reports {
        let object = job_object(alloc, *report)?;
        serde_json::push(&mut list, object)?;
    }
    Ok(Value::Array(list))
}

/// Returns what `batch` prints of the files of its list, in their order, if it ends with this
/// status.
///
/// # Errors
///
/// Memory is refused.
pub fn batch_object(alloc: Global, reports: &[JobReport], status: u8) -> Result<Value, AllocError>
    ensures { IfOk result (λ v. view v ≡ batch_data reports.now status) }
{
    let files = jobs_array(alloc, reports)?;
    object_with(
        alloc,
        "files",
        files,
        &[
            ("command", Scalar::Text("batch")),
            ("status", Scalar::Count(u64::from(status))),
        ],
    )
}
